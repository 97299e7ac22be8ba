//! What is known of what is in memory, where it is read.

ghost use Rattle.std.specs.Prelude.{◌≡◌, ◌^◌, ◌<◌, true, All, length};
ghost use Rattle.vs_history.specs.Means.{means};
ghost use Rattle.vs_legal.specs.Account.{is_told};
ghost use Rattle.vs_legal.specs.Laws.{AreBasesNamed};
ghost use Rattle.vs_legal.specs.Named.{IsNamedRow};
ghost use Rattle.vs_state.specs.Plain.{plain};
ghost use Rattle.vs_state.specs.Sized.{IsSized};

use vs_base::BucketId;
use vs_history::History;
use vs_rows::{Key, Val};
use vs_state::State;

/// The length of a text has 64 bits.
pub fn is_short(text: &[u8])
    ensures { length text.now < 2 ^ 64 }
{}

/// Rows are of keys and values.
fn are_named(rows: &[(Key, Val)])
    ensures { All IsNamedRow rows.now }
{
    for (key, value) in rows {
        let _key = key.as_bytes();
        let _value = value.as_bytes();
    }
}

/// Those of a history are, where it has a write or a read.
fn base_is_named(history: &History)
    ensures { is_told (means history.now) ≡ true → All IsNamedRow (means history.now).base }
{
    if history.writes() > 0 || history.reads() > 0 {
        are_named(history.base().as_slice());
    }
}

/// The rows with which the buckets of the report's histories began are of keys and values.
pub fn bases_are_named(state: &State)
    requires { IsSized state.now }
    ensures { AreBasesNamed (plain state.now) }
{
    for index in 0..state.config.bucket_count {
        let Some(bucket) = BucketId::new(index + 1) else {
            unreachable!()
        };
        base_is_named(state.history(bucket));
    }
}
