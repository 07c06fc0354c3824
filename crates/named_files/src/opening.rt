// Opens all files that the words name.
ghost use Rattle.std.specs.Prelude.{◌≡◌, ◌⊎◌, Some, IfSome, IfNone, IfOk, IfErr, IsTrue, false, true};
ghost use Rattle.job_words.specs.Files.{file_texts};
ghost use Rattle.named_files.specs.Folders.{AreApart, AreFilesOf, Denies, IsFileOf, IsIndexDenied, IsIndexOf, IsLogDenied, IsMakingDenied, IsRefused, Meets, log_name, text_of};

use crate::{Denial, Folder, Named, Refusal};
use job_words::{FileNames, Makes};

/// The objects of a run. Each is present where its file is named.
#[derive(Drop)]
pub struct Opened<I, L, T> {
    pub index: Named<I>,
    pub other: Named<I>,
    pub log_in: Named<L>,
    pub log_out: Named<T>,
}

/// Why the files were not opened, and the folder. No file was made or emptied in the folder.
#[derive(Drop)]
pub struct Unopened<Name, F: Folder> {
    pub refusal: Refusal<Name, F::Reason>,
    pub folder: F,
}

// Returns the name `read`, where its file is the same as that of `made`.
fn met<'a, F: Folder>(folder: &F, made: &str, read: Option<&'a str>) -> Option<&'a str>
    ensures met { IfSome result (λ name. (text_of read.entry ≡ Some name.now) × (F.meaning folder.now).are_one made.now name.now) }
    ensures apart { IfNone result (IfSome (text_of read.entry) ((F.meaning folder.now).are_apart made.now)) }
{
    let name = read?;
    if folder.is_one_file(made, name) {
        Some(name)
    } else {
        None
    }
}

// Returns the first of three names whose file is the same as that of `made`.
fn first_met<'a, F: Folder>(
    folder: &F,
    made: &str,
    index: Option<&'a str>,
    other: Option<&'a str>,
    log_in: Option<&'a str>,
) -> Option<&'a str>
    ensures met { IfSome result (λ name. ((text_of index.entry ≡ Some name.now)
        ⊎ ((text_of other.entry ≡ Some name.now) ⊎ (text_of log_in.entry ≡ Some name.now)))
        × (F.meaning folder.now).are_one made.now name.now) }
    ensures apart { IfNone result (IfSome (text_of index.entry) ((F.meaning folder.now).are_apart made.now)
        × IfSome (text_of other.entry) ((F.meaning folder.now).are_apart made.now)
        × IfSome (text_of log_in.entry) ((F.meaning folder.now).are_apart made.now)) }
{
    if let Some(name) = met(folder, made, index) {
        return Some(name);
    }
    if let Some(name) = met(folder, made, other) {
        return Some(name);
    }
    met(folder, made, log_in)
}

// Returns the file to be made and a file to be read, where they are one file.
fn meeting<'a, F: Folder>(
    folder: &F,
    names: &FileNames<&'a str>,
) -> Option<Refusal<&'a str, F::Reason>>
    ensures met { IfSome result (Meets (F.meaning folder.now) (file_texts names.now)) }
    ensures apart { IfNone result (AreApart (F.meaning folder.now) (file_texts names.now) (file_texts names.now).makes) }
{
    let (made, index) = match names.makes {
        Makes::Nothing => return None,
        Makes::Index => (names.index?, None),
        Makes::Log(log) => (log, names.index),
    };
    let read = first_met(folder, made, index, names.other, names.log_in)?;
    Some(Refusal::OneFile { made, read })
}

// Opens the existing index of a name, if there is a name.
fn open_index<'a, F: Folder>(
    folder: &F,
    name: Option<&'a str>,
    writes: bool,
) -> Result<Named<F::Index>, Refusal<&'a str, F::Reason>>
    ensures opened { IfOk result (λ file. IsFileOf (λ text index. (F.meaning folder.now).is_index text writes index
        × (F.meaning folder.now).is_held text writes index) (text_of name.entry) file.0) }
    ensures denied { IfErr result (Denies (IsIndexDenied (F.meaning folder.now)) (text_of name.entry)) }
{
    let Some(name) = name else {
        return Ok(Named(None));
    };
    match folder.open_index(name, writes) {
        Ok(index) => Ok(Named(Some(index))),
        Err(why) => Err(Refusal::Denied { name, why }),
    }
}

// Opens the logs of a name, if there is a name.
fn open_log<'a, F: Folder>(
    folder: &F,
    name: Option<&'a str>,
) -> Result<Named<F::LogIn>, Refusal<&'a str, F::Reason>>
    ensures opened { IfOk result (λ file. IsFileOf (F.meaning folder.now).is_log_in (text_of name.entry) file.0) }
    ensures denied { IfErr result (Denies (IsLogDenied (F.meaning folder.now)) (text_of name.entry)) }
{
    let Some(name) = name else {
        return Ok(Named(None));
    };
    match folder.open_log(name) {
        Ok(log) => Ok(Named(Some(log))),
        Err(why) => Err(Refusal::Denied { name, why }),
    }
}

// Makes the log, if one is named.
fn make_log<'a, F: Folder>(
    folder: F,
    name: Option<&'a str>,
) -> Result<Named<F::LogOut>, Unopened<&'a str, F>>
    ensures opened { IfOk result (λ file. IsFileOf (F.meaning folder).is_log_out (text_of name.entry) file.0) }
    ensures denied { IfErr result (λ e. Denies (IsMakingDenied (F.meaning folder)) (text_of name.entry) e.refusal) }
    ensures given_back { IfErr result (λ e. e.folder ≡ folder) }
{
    let Some(name) = name else {
        return Ok(Named(None));
    };
    match folder.make_log(name) {
        Ok(log) => Ok(Named(Some(log))),
        Err((why, folder)) => Err(Unopened {
            refusal: Refusal::Denied { name, why },
            folder,
        }),
    }
}

// Makes the index, if one is named.
fn make_index<'a, F: Folder>(
    folder: F,
    name: Option<&'a str>,
) -> Result<Named<F::Index>, Unopened<&'a str, F>>
    ensures opened { IfOk result (λ file. IsFileOf (λ text index. (F.meaning folder).is_made text index
        × (F.meaning folder).is_held text true index) (text_of name.entry) file.0) }
    ensures denied { IfErr result (λ e. Denies (IsIndexDenied (F.meaning folder)) (text_of name.entry) e.refusal) }
    ensures given_back { IfErr result (λ e. e.folder ≡ folder) }
{
    let Some(name) = name else {
        return Ok(Named(None));
    };
    match folder.make_index(name) {
        Ok(index) => Ok(Named(Some(index))),
        Err((why, folder)) => Err(Unopened {
            refusal: Refusal::Denied { name, why },
            folder,
        }),
    }
}

// Opens the existing index, and then makes the log.
fn open_then_make<'a, F: Folder>(
    folder: F,
    index: Option<&'a str>,
    writes: bool,
    log: Option<&'a str>,
) -> Result<(Named<F::Index>, Named<F::LogOut>), Unopened<&'a str, F>>
    ensures index { IfOk result (λ x. IsFileOf (λ text file. (F.meaning folder).is_index text writes file
        × (F.meaning folder).is_held text writes file) (text_of index.entry) x.0.0) }
    ensures log { IfOk result (λ x. IsFileOf (F.meaning folder).is_log_out (text_of log.entry) x.1.0) }
    ensures denied { IfErr result (λ e. Denies (IsIndexDenied (F.meaning folder)) (text_of index.entry) e.refusal
        ⊎ Denies (IsMakingDenied (F.meaning folder)) (text_of log.entry) e.refusal) }
    ensures given_back { IfErr result (λ e. e.folder ≡ folder) }
{
    let index = match open_index(&folder, index, writes) {
        Ok(index) => index,
        Err(refusal) => return Err(Unopened { refusal, folder }),
    };
    let log = make_log(folder, log)?;
    Ok((index, log))
}

// Opens or makes the index, and makes the log. This is the last step, since it may make a file.
fn take_written<'a, F: Folder>(
    folder: F,
    names: &FileNames<&'a str>,
) -> Result<(Named<F::Index>, Named<F::LogOut>), Unopened<&'a str, F>>
    ensures index { IfOk result (λ x. IsFileOf (IsIndexOf (F.meaning folder) (file_texts names.now).makes names.now.writes)
        (file_texts names.now).index x.0.0) }
    ensures log { IfOk result (λ x. IsFileOf (F.meaning folder).is_log_out (log_name (file_texts names.now).makes) x.1.0) }
    ensures denied { IfErr result (λ e. Denies (IsIndexDenied (F.meaning folder)) (file_texts names.now).index e.refusal
        ⊎ Denies (IsMakingDenied (F.meaning folder)) (log_name (file_texts names.now).makes) e.refusal) }
    ensures given_back { IfErr result (λ e. e.folder ≡ folder) }
{
    match names.makes {
        Makes::Nothing => open_then_make(folder, names.index, names.writes, None),
        Makes::Log(log) => open_then_make(folder, names.index, names.writes, Some(log)),
        Makes::Index => {
            match make_index(folder, names.index) {
                Ok(index) => Ok((index, Named(None))),
                Err(unopened) => Err(unopened),
            }
        }
    }
}

// Opens the other index and the logs, which are only read.
fn open_read<'a, F: Folder>(
    folder: &F,
    names: &FileNames<&'a str>,
) -> Result<(Named<F::Index>, Named<F::LogIn>), Refusal<&'a str, F::Reason>>
    ensures other { IfOk result (λ x. IsFileOf (λ text index. (F.meaning folder.now).is_index text false index
        × (F.meaning folder.now).is_held text false index) (file_texts names.now).other x.0.0) }
    ensures log { IfOk result (λ x. IsFileOf (F.meaning folder.now).is_log_in (file_texts names.now).log_in x.1.0) }
    ensures denied { IfErr result (λ e. Denies (IsIndexDenied (F.meaning folder.now)) (file_texts names.now).other e
        ⊎ Denies (IsLogDenied (F.meaning folder.now)) (file_texts names.now).log_in e) }
{
    let other = open_index(folder, names.other, false)?;
    let log_in = open_log(folder, names.log_in)?;
    Ok((other, log_in))
}

/// Opens all files in `names`: first those that are only read, and last the file that is made.
///
/// Refuses in these cases: the file to be made is a file to be read, a file can't be opened, another process holds an index, or the
/// log to be made begins as an index. Then no file was made or emptied, and the folder is given back.
pub fn open_files<'a, F: Folder>(
    folder: F,
    names: &FileNames<&'a str>,
) -> Result<Opened<F::Index, F::LogIn, F::LogOut>, Unopened<&'a str, F>>
    ensures opened { IfOk result (AreFilesOf (F.meaning folder) (file_texts names.now)) }
    ensures apart { IfOk result (λ files. AreApart (F.meaning folder) (file_texts names.now) (file_texts names.now).makes) }
    ensures refused { IfErr result (λ e. IsRefused (F.meaning folder) (file_texts names.now) e.refusal) }
    ensures given_back { IfErr result (λ e. e.folder ≡ folder) }
{
    if let Some(refusal) = meeting(&folder, names) {
        return Err(Unopened { refusal, folder });
    }
    let (other, log_in) = match open_read(&folder, names) {
        Ok(read) => read,
        Err(refusal) => return Err(Unopened { refusal, folder }),
    };
    let (index, log_out) = take_written(folder, names)?;
    Ok(Opened {
        index,
        other,
        log_in,
        log_out,
    })
}
