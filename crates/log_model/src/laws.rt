//! Laws of logs: what a sound one shows, and which one a search writes.

ghost use Rattle.log_model.specs.Laws.{SoundLogsAreComplete, SoundJoinLogsAreComplete, LeastLogsAreSound, LeastJoinLogsAreSound, LeastLogIsOne, LeastJoinLogIsOne};

/// On a sound tree the answers of a sound log are those of the plain scan of the tree's points.
pub fn sound_logs_are_complete()
    ensures { SoundLogsAreComplete }
{}

/// On two sound trees the answers of a sound join log are those of the plain double loop.
pub fn sound_join_logs_are_complete()
    ensures { SoundJoinLogsAreComplete }
{}

/// A query's least log is sound.
pub fn least_logs_are_sound()
    ensures { LeastLogsAreSound }
{}

/// A join's least log is sound.
pub fn least_join_logs_are_sound()
    ensures { LeastJoinLogsAreSound }
{}

/// On a sound tree each query whose point fits has exactly one least log.
pub fn least_log_is_one()
    ensures { LeastLogIsOne }
{}

/// Two sound trees have exactly one least log of the join within a radius.
pub fn least_join_log_is_one()
    ensures { LeastJoinLogIsOne }
{}
