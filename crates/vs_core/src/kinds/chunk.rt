//! The next rows of a bucket are sent.

ghost use Rattle.std.specs.Prelude.{◌≡◌, Ok, IfOk};
ghost use Rattle.std.specs.Option.{option_copied};
ghost use Rattle.vs_machine.specs.Kinds.Sender as sender;
ghost use Rattle.vs_state.specs.Guard.{verdict};
ghost use Rattle.vs_state.specs.Plain.{plain};
ghost use Rattle.vs_core.specs.Keeps.{IsKnown, IsSound};
ghost use Rattle.vs_core.specs.Sending.{IsChunkReady};

use crate::moves::wait_for_rows;
use crate::posting::{post, reserve_post};
use vs_base::{BucketId, NoMemory, SetNo};
use vs_link::Msg;
use vs_rows::{Key, Page};
use vs_send::Phase;
use vs_state::State;

/// The most rows of a message.
const MAX_ROWS: u16 = 1_000;

/// The rows that a set sends next, and the key of the last of them.
#[derive(Drop)]
pub struct PreparedChunk {
    pub page: Page,
    pub last: Option<Key>,
}

/// The rows of a bucket at a set that come next after this key, or from the first row on.
fn next_page(
    state: &State,
    set: SetNo,
    bucket: BucketId,
    after: Option<&Key>,
) -> Result<Page, NoMemory>
    ensures { IfOk result (λ page. page.items
        ≡ sender.next_page (((plain state.now).bucket bucket).rows set) (option_copied after.entry)) }
{
    let stored = match state.set(set) {
        Some(tables) => tables.rows.get(bucket),
        None => None,
    };
    match stored {
        Some(rows) => rows.page(after, MAX_ROWS),
        None => Ok(Page::new(*state.sets.allocator())),
    }
}

/// The key of the last row of a page.
fn last_key(page: &Page) -> Result<Option<Key>, NoMemory>
    ensures { IfOk result (λ last. last ≡ sender.last_key page.now.items) }
{
    match page.as_slice().last() {
        Some((key, _)) => Ok(Some(key.try_clone()?)),
        None => Ok(None),
    }
}

/// Makes ready what a chunk needs: the rows, and room for the message.
pub(crate) fn reserve_chunk(
    state: &mut State,
    set: SetNo,
    bucket: BucketId,
) -> Result<PreparedChunk, NoMemory>
    requires possible { verdict (sender.chunk (plain state.old) set bucket) ≡ Ok tt }
    requires known { IsKnown (plain state.old) }
    requires sound { IsSound state.old }
    ensures ready { IfOk result (λ prepared. IsChunkReady state.new set bucket prepared) }
    ensures same { plain state.new ≡ plain state.old }
    ensures sound { IsSound state.new }
{
    let Some(transfer) = state.transfer(set, bucket) else {
        unreachable!()
    };
    let dest = transfer.dest;
    let Phase::Ready(after) = &transfer.phase else {
        unreachable!()
    };
    let page = next_page(state, set, bucket, after.as_ref())?;
    let last = last_key(&page)?;
    reserve_post(state, set, dest)?;
    Ok(PreparedChunk { page, last })
}

/// A set sends the next rows of a bucket, and waits for the reply.
pub(crate) fn chunk(state: &mut State, set: SetNo, bucket: BucketId, prepared: PreparedChunk)
    requires possible { verdict (sender.chunk (plain state.old) set bucket) ≡ Ok tt }
    requires known { IsKnown (plain state.old) }
    requires sound { IsSound state.old }
    requires ready { IsChunkReady state.old set bucket prepared }
    ensures step { sender.chunk (plain state.old) set bucket ≡ Ok (plain state.new) }
    ensures sound { IsSound state.new }
{
    let Some(transfer) = state.transfer(set, bucket) else {
        return;
    };
    let dest = transfer.dest;
    let epoch = state.epoch(set, dest);
    let PreparedChunk { page, last } = prepared;
    let sync = post(state, set, dest, Msg::Chunk(bucket, page));
    wait_for_rows(state, set, bucket, epoch, sync, last);
}
