//! What is published before any line is read.
ghost use Rattle.std.specs.Prelude.{◌≡◌, IfOk, IfErr, IsOk, map};
ghost use Rattle.ctf_broker.specs.Table.{library_at};
ghost use Rattle.ctf_laws.specs.Good.{AreGood};
ghost use Rattle.ctf_command.specs.Argument.{argument_shown};
ghost use Rattle.ctf_command.specs.Files.{bytes_given};
ghost use Rattle.ctf_command.specs.Started.{IsPublished, IsPublishedFile, IsStarted, IsUnpublished, IsUnpublishedFile, IsUnstarted};

use crate::files::FileReader;
use crate::publications::{Wanted, all_wanted, are_wanted};
use crate::starts::NotStarted;
use ctf_dump::DumpEnd;
use ctf_wire::Broker;
use std::alloc::Global;

/// Publishes the bytes of a file for the operator.
fn publish_read<'a>(
    broker: &mut Broker,
    wanted: &Wanted<'a>,
    read: Result<Vec<u8>, DumpEnd<'a>>,
) -> Result<(), NotStarted<'a>>
    ensures good { AreGood (library_at broker.old) → AreGood (library_at broker.new) }
    ensures read { IfOk result (λ done. IsOk read.entry) }
    ensures published { IfOk result (λ done. IfOk read.entry (λ bytes.
        IsPublished wanted.now.name bytes.items broker.old broker.new)) }
    ensures refused { IfErr result (λ why. IsUnpublished broker.old (argument_shown wanted.now)
        (bytes_given read.entry) why) }
{
    let bytes = read.map_err(NotStarted::File)?;
    match broker.load_section(&wanted.name, bytes) {
        Ok(_) => Ok(()),
        Err(fault) => Err(NotStarted::by(wanted.file, fault)),
    }
}

/// Publishes a file for the operator.
fn publish<'a, F: FileReader>(
    files: &F,
    broker: &mut Broker,
    wanted: &Wanted<'a>,
) -> Result<(), NotStarted<'a>>
    ensures good { AreGood (library_at broker.old) → AreGood (library_at broker.new) }
    ensures published { IfOk result (λ done. IsPublishedFile (F.gave files.now)
        (argument_shown wanted.now) broker.old broker.new) }
    ensures refused { IfErr result (λ why. IsUnpublishedFile (F.gave files.now)
        (argument_shown wanted.now) broker.old why) }
{
    publish_read(broker, wanted, files.read(wanted.file))
}

/// A broker that has published the files of all words, in order. All words are checked before a
/// file is read.
pub fn start<'a, F: FileReader>(
    alloc: Global,
    files: &F,
    words: &[&'a str],
) -> Result<Broker, NotStarted<'a>>
    ensures good { IfOk result (λ broker. AreGood (library_at broker)) }
    ensures started { IfOk result (λ broker. IsStarted (F.gave files.now)
        (map (λ w. w.now) words.now) broker) }
    ensures unstarted { IfErr result (λ why. IsUnstarted (F.gave files.now)
        (map (λ w. w.now) words.now) why) }
{
    if !are_wanted(words) {
        return Err(NotStarted::Misused);
    }
    let Ok(Some(all)) = all_wanted(alloc, words) else {
        return Err(NotStarted::File(DumpEnd::Memory));
    };
    let mut broker = Broker::new(alloc);
    for wanted in &all {
        publish(files, &mut broker, wanted)?;
    }
    Ok(broker)
}
