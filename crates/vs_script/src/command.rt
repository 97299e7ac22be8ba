//! The commands of an operator.

ghost use Rattle.std.specs.Prelude.{ℕ, ◌≡◌, ◌≤◌, ◌↔◌, IfOk, IsTrue};
ghost use Rattle.vs_text.specs.Lines.{words_in};
ghost use Rattle.vs_script.specs.Given.{Takes};
ghost use Rattle.vs_script.specs.Lines.{command_at, command_of};

use crate::command_word::CommandWord;
use crate::fault::ScriptKind;
use crate::words::Words;
use std::alloc::Global;
use vs_base::{BucketId, ClientNo, Items, NoMemory, SetNo};

/// A command of an operator.
#[derive(Clone, Copy, PartialEq, Eq)]
pub enum Command {
    /// Moves a bucket from a set to another, as `vshard.storage.bucket_send`.
    Send(BucketId, SetNo, SetNo),
    /// Forbids to move a bucket at a set, as `vshard.storage.bucket_pin`.
    Pin(BucketId, SetNo),
    /// Allows it again, as `vshard.storage.bucket_unpin`.
    Unpin(BucketId, SetNo),
    /// Closes the connection from the first set to the second.
    Close(SetNo, SetNo),
    /// Gives up a client's call of this number.
    Cut(ClientNo, u32),
    /// Takes a set down.
    Stop(SetNo),
    /// Brings a set up again.
    Restart(SetNo),
    /// Moves buckets until the sets have their ideal counts.
    Balance,
}

/// A list of commands.
pub type Commands = Items<Command>;

/// A list of equal commands.
pub fn copy_commands(alloc: Global, given: &Commands) -> Result<Commands, NoMemory>
    ensures { IfOk result (λ copy. copy.items ≡ given.now.items) }
{
    let mut copy = Commands::new(alloc);
    copy.reserve_many(given.len())?;
    for command in given.as_slice() {
        copy.push(*command);
    }
    Ok(copy)
}

/// Whether two lists have equal commands, in the same order. It takes no memory.
pub(crate) fn same_commands(some: &Commands, others: &Commands) -> bool
    ensures { IsTrue result ↔ (some.now.items ≡ others.now.items) }
{
    some.as_slice() == others.as_slice()
}

fn send(words: &mut Words, buckets: u32, sets: u32) -> Result<Command, ScriptKind>
    requires { sets ≤ 32 }
    ensures { Takes (λ x. x) result words.new
        (command_at buckets sets CommandWord.Send words.old) }
{
    let bucket = words.bucket(buckets)?;
    let from = words.set(sets)?;
    let to = words.set(sets)?;
    Ok(Command::Send(bucket, from, to))
}

fn pin(words: &mut Words, buckets: u32, sets: u32) -> Result<Command, ScriptKind>
    requires { sets ≤ 32 }
    ensures { Takes (λ x. x) result words.new
        (command_at buckets sets CommandWord.Pin words.old) }
{
    let bucket = words.bucket(buckets)?;
    let set = words.set(sets)?;
    Ok(Command::Pin(bucket, set))
}

fn unpin(words: &mut Words, buckets: u32, sets: u32) -> Result<Command, ScriptKind>
    requires { sets ≤ 32 }
    ensures { Takes (λ x. x) result words.new
        (command_at buckets sets CommandWord.Unpin words.old) }
{
    let bucket = words.bucket(buckets)?;
    let set = words.set(sets)?;
    Ok(Command::Unpin(bucket, set))
}

fn close(words: &mut Words, sets: u32) -> Result<Command, ScriptKind>
    requires { sets ≤ 32 }
    ensures { (m : ℕ) → Takes (λ x. x) result words.new
        (command_at m sets CommandWord.Close words.old) }
{
    let from = words.set(sets)?;
    let to = words.set(sets)?;
    if from == to {
        return Err(ScriptKind::BadSet);
    }
    Ok(Command::Close(from, to))
}

fn cut(words: &mut Words) -> Result<Command, ScriptKind>
    ensures { (m n : ℕ) → Takes (λ x. x) result words.new
        (command_at m n CommandWord.Cut words.old) }
{
    let client = words.client()?;
    let call = words.number()?;
    Ok(Command::Cut(client, call))
}

fn stop(words: &mut Words, sets: u32) -> Result<Command, ScriptKind>
    requires { sets ≤ 32 }
    ensures { (m : ℕ) → Takes (λ x. x) result words.new
        (command_at m sets CommandWord.Stop words.old) }
{
    let set = words.set(sets)?;
    Ok(Command::Stop(set))
}

fn restart(words: &mut Words, sets: u32) -> Result<Command, ScriptKind>
    requires { sets ≤ 32 }
    ensures { (m : ℕ) → Takes (λ x. x) result words.new
        (command_at m sets CommandWord.Restart words.old) }
{
    let set = words.set(sets)?;
    Ok(Command::Restart(set))
}

/// The command of this word, whose numbers are the next words.
fn of_word(
    name: CommandWord,
    words: &mut Words,
    buckets: u32,
    sets: u32,
) -> Result<Command, ScriptKind>
    requires { sets ≤ 32 }
    ensures { Takes (λ x. x) result words.new
        (command_at buckets sets name words.old) }
{
    match name {
        CommandWord::Send => send(words, buckets, sets),
        CommandWord::Pin => pin(words, buckets, sets),
        CommandWord::Unpin => unpin(words, buckets, sets),
        CommandWord::Close => close(words, sets),
        CommandWord::Cut => cut(words),
        CommandWord::Stop => stop(words, sets),
        CommandWord::Restart => restart(words, sets),
        CommandWord::Balance => Ok(Command::Balance),
    }
}

impl Command {
    /// The command of a line, over this many buckets and sets.
    pub(crate) fn read(line: &[u8], buckets: u32, sets: u32) -> Result<Command, ScriptKind>
        requires { sets ≤ 32 }
        ensures { result ≡ command_of buckets sets (words_in line.now) }
    {
        let mut words = Words::of(line);
        let name = CommandWord::read(&mut words)?;
        let command = of_word(name, &mut words, buckets, sets)?;
        words.end()?;
        Ok(command)
    }
}
