//! The calls that are generated, drawn one after the other.

ghost use Rattle.std.specs.Prelude.{◌≡◌, ◌*◌, ◌∷◌, [], map, IfOk, OnOk};
ghost use Rattle.vs_script.specs.Calls.{call as plain_call, calls as plain_calls};
ghost use Rattle.vs_gen.specs.Calls.{bucket_of, drawn_call, drawn_calls, drawn_clients, kind_of, key_of, ops_of, value_of};
ghost use Rattle.vs_gen.specs.Draws.{state_after};

use crate::draws::Draws;
use crate::kind::Kind;
use crate::names::{key, value};
use std::alloc::Global;
use vs_base::{BucketId, NoMemory};
use vs_rows::{Op, Ops};
use vs_script::{Call, Calls, ClientCalls};

/// How many buckets the calls are of.
const BUCKETS: u32 = 3_000;

/// How many rows a scan reads.
const ROWS: u8 = 5;

fn bucket(draw: u32) -> BucketId
    ensures { result ≡ bucket_of draw }
{
    BucketId::new(1 + draw % BUCKETS).unwrap()
}

fn two(alloc: Global, first: Op, second: Op) -> Result<Ops, NoMemory>
    ensures { IfOk result (λ ops. ops.items ≡ first ∷ second ∷ []) }
{
    let mut ops = Ops::one(alloc, first)?;
    ops.reserve()?;
    ops.push(second);
    Ok(ops)
}

/// The operations of a kind, with a key and a value by their draws.
fn ops(alloc: Global, kind: Kind, key_draw: u32, value_draw: u32) -> Result<Ops, NoMemory>
    ensures { IfOk result (λ ops. ops.items ≡ ops_of kind (key_of key_draw) (value_of value_draw)) }
{
    let key = key(alloc, key_draw)?;
    match kind {
        Kind::Get => Ops::one(alloc, Op::Get(key)),
        Kind::Put => {
            let value = value(alloc, value_draw)?;
            Ops::one(alloc, Op::Put(key, value))
        }
        Kind::InsertAndCount => {
            let value = value(alloc, value_draw)?;
            two(alloc, Op::Insert(key, value), Op::Count)
        }
        Kind::CountAndScan => two(alloc, Op::Count, Op::Scan(key, ROWS)),
    }
}

/// The next call, which takes four draws.
fn call(alloc: Global, draws: &mut Draws) -> Result<Call, NoMemory>
    ensures call { IfOk result (λ c. plain_call c ≡ drawn_call draws.old 0) }
    ensures draws { draws.new ≡ state_after draws.old 4 }
{
    let bucket = bucket(draws.next());
    let key_draw = draws.next();
    let kind = Kind::of(draws.next());
    let value_draw = draws.next();
    let ops = ops(alloc, kind, key_draw, value_draw)?;
    Ok(Call {
        mode: kind.mode(),
        bucket,
        ops,
    })
}

/// The next calls, so many.
fn calls(alloc: Global, draws: &mut Draws, many: u32) -> Result<Calls, NoMemory>
    ensures calls { IfOk result (λ c. plain_calls c.items ≡ drawn_calls draws.old 0 many) }
    ensures draws { OnOk result (draws.new ≡ state_after draws.old (4 * many)) }
{
    let mut calls = Calls::new(alloc);
    calls.reserve_many(many as usize)?;
    for _call in 0..many {
        calls.push(call(alloc, draws)?);
    }
    Ok(calls)
}

/// The calls of so many clients, each with so many.
pub(crate) fn clients(
    alloc: Global,
    number: u32,
    clients: u32,
    each: u32,
) -> Result<ClientCalls, NoMemory>
    ensures { IfOk result (λ c. map (λ k. plain_calls k.items) c.items ≡ drawn_clients number clients each) }
{
    let mut draws = Draws::of(number);
    let mut drawn = ClientCalls::new(alloc);
    drawn.reserve_many(clients as usize)?;
    for _client in 0..clients {
        drawn.push(calls(alloc, &mut draws, each)?);
    }
    Ok(drawn)
}
