//! Laws of scripts of objects.

ghost use Rattle.job_dump.specs.Laws.{DumpsMakeAgain, ScriptsReadBack};

use job_files::laws::heads_have_spaces;

/// A script of objects is read as one load of these objects and tags.
pub fn scripts_read_back()
    ensures { ScriptsReadBack }
{}

/// The script of a sound file's objects, run on an empty index of the same head, makes the file's list.
pub fn dumps_make_again()
    ensures { DumpsMakeAgain }
{
    heads_have_spaces();
}
