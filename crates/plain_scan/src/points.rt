ghost use Rattle.std.specs.Prelude.{◌≡◌, length};
ghost use Rattle.std.specs.List.{list_all};
ghost use Rattle.rows_text.specs.Meaning.{has_points_of};

use metric_laws::{Metric, Rows};
use rows_text::Command;

// Returns whether each row is a point of the metric's space.
pub fn all_fit<M: Metric>(metric: &M, rows: &Rows) -> bool
    ensures { result ≡ list_all (M.space metric.now).is_point rows.now.points }
{
    for i in 0..rows.len() {
        if !metric.is_point(rows.point(i)) {
            return false;
        }
    }
    true
}

/// Returns whether each point of `command` is a point of the metric's space.
pub fn has_points_of<M: Metric>(metric: &M, command: &Command) -> bool
    ensures { result ≡ has_points_of (M.space metric.now) command.now }
{
    match command {
        Command::Insert(p) | Command::Cursor(p) => metric.is_point(p.as_slice()),
        Command::TagInsert { p, .. } => metric.is_point(p.as_slice()),
        Command::Range { q, .. } | Command::Nearest { q, .. } => metric.is_point(q.as_slice()),
        Command::Load(rows) | Command::TagLoad { rows, .. } => all_fit(metric, rows),
        Command::Count | Command::Bad(_) | Command::Next { .. } | Command::Close(_) => true,
    }
}
