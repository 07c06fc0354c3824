// The words for what a head's numbers stand for.
ghost use Rattle.std.specs.Prelude.{◌≡◌, ◌≤◌};
ghost use Rattle.job_stats.specs.Names.{WordsAreRead, metric_word, promote_word, split_word};

/// Returns the word for a metric's kind, from 1 to 8.
pub fn metric_word(kind: u8) -> &'static [u8]
    ensures { result.now ≡ metric_word kind }
{
    match kind {
        1 => b"hamming",
        2 => b"l1",
        3 => b"max",
        4 => b"kendall",
        5 => b"hausdorff",
        6 => b"mixsum",
        7 => b"mixmax",
        _ => b"l1cap",
    }
}

/// Returns the word for a promotion policy's number, 1 or 2.
pub fn promote_word(number: u8) -> &'static [u8]
    ensures { result.now ≡ promote_word number }
{
    match number {
        1 => b"mrad",
        _ => b"mmrad",
    }
}

/// Returns the word for a partition policy's number, 1 or 2.
pub fn split_word(number: u8) -> &'static [u8]
    ensures { result.now ≡ split_word number }
{
    match number {
        1 => b"hyperplane",
        _ => b"balanced",
    }
}

/// Each of these words is read by `create` as what it stands for.
pub fn words_are_read()
    ensures { WordsAreRead }
{}
