//! What is put of what was prepared.

ghost use Rattle.std.specs.Prelude.{◌≤◌, ◌⊎◌, IsErrOf};
ghost use Rattle.outside_io.specs.Causes.{Rose};
ghost use Rattle.batch_run.specs.Jobs.Putting.{ArePut, IsPut};

use crate::jobs::piles::Prepared;
use crate::jobs::stop::BatchStop;
use answer_texts::put_texts;
use outside_io::Sink;

// Puts what was prepared for one command: the frame of a query's log, and then the reply.
fn put_one<K: Sink, T: Sink>(
    prepared: &Prepared<'_>,
    out: &mut K,
    log_out: &mut T,
) -> Result<(), BatchStop>
    ensures put { IsPut prepared.now (K.state out.old) (K.state out.new) (T.state log_out.old) (T.state log_out.new) result }
    ensures rose { IsErrOf result BatchStop.Sink → Rose (K.state out.old).faults (K.state out.new).faults
        ⊎ Rose (T.state log_out.old).faults (T.state log_out.new).faults }
    ensures later { (K.state out.old).faults ≤ (K.state out.new).faults }
    ensures log_later { (T.state log_out.old).faults ≤ (T.state log_out.new).faults }
{
    match prepared {
        Prepared::Damaged(fault) => Err(BatchStop::Damaged(*fault)),
        Prepared::Said { reply, frame } => Ok(put_texts(reply, frame, out, log_out)?),
    }
}

/// Puts what was prepared for the commands, in their order, and each in one put: first the frame of a query's log to `log_out`,
/// then the reply to `out`. Stops at the first one that is no answer.
pub fn put_all<K: Sink, T: Sink>(
    prepared: &[Prepared<'_>],
    out: &mut K,
    log_out: &mut T,
) -> Result<(), BatchStop>
    ensures put { ArePut prepared.now (K.state out.old) (K.state out.new) (T.state log_out.old) (T.state log_out.new) result }
    ensures rose { IsErrOf result BatchStop.Sink → Rose (K.state out.old).faults (K.state out.new).faults
        ⊎ Rose (T.state log_out.old).faults (T.state log_out.new).faults }
    ensures later { (K.state out.old).faults ≤ (K.state out.new).faults }
    ensures log_later { (T.state log_out.old).faults ≤ (T.state log_out.new).faults }
{
    for one in prepared {
        put_one(one, out, log_out)?;
    }
    Ok(())
}
