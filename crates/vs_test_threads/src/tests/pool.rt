//! Reads by several workers.

ghost use Rattle.std.specs.Prelude.{◌≡◌, ◌≤◌, All, IfOk, length};
ghost use Rattle.vs_pool.specs.Results.{IsWithin};

use std::alloc::Global;
use std::sync::atomic::{AtomicU32, Ordering};
use std::test::Fail;
use vs_base::{BucketId, ClientNo, Items};
use vs_gate::{Gate, OpenGate};
use vs_pool::{Job, JobResult, Jobs, RowTable2, answer_all};
use vs_rows::{Answer, Key, Op, Ops, Rows, Val};
use vs_words::RefWords;

/// Four buckets, of which the third has the row a with 1.
fn four_buckets(alloc: Global) -> Result<RowTable2, Fail>
    ensures { IfOk result (λ t. length t.items ≡ 4) }
{
    let mut maps: RowTable2 = Items::new(alloc);
    for place in 0..4u32 {
        let mut rows = Rows::new(alloc);
        if place == 2 {
            let put = Op::Put(Key::new(alloc, b"a")?, Val::new(alloc, b"1")?);
            rows.apply(&Ops::one(alloc, put)?)?;
        }
        maps.reserve()?;
        maps.push(rows);
    }
    Ok(maps)
}

/// So often a get of a in bucket `third` and a count of bucket `second`.
fn reads(alloc: Global, third: BucketId, second: BucketId, times: u32) -> Result<Jobs, Fail>
    requires { (third ≤ 4) × (second ≤ 4) }
    ensures { IfOk result (λ jobs. All (IsWithin 4 4) jobs.items) }
{
    let client = ClientNo::new(1).ok_or("client")?;
    let mut jobs: Jobs = Items::new(alloc);
    for call in 0..times {
        let ops = Ops::one(alloc, Op::Get(Key::new(alloc, b"a")?))?;
        jobs.reserve()?;
        jobs.push(Job {
            client,
            call,
            bucket: third,
            ops,
        });
        let ops = Ops::one(alloc, Op::Count)?;
        jobs.reserve()?;
        jobs.push(Job {
            client,
            call,
            bucket: second,
            ops,
        });
    }
    Ok(jobs)
}

fn is_one(one: &JobResult) -> bool {
    let JobResult::Served(answers) = one else {
        return false;
    };
    matches!(answers.as_slice(), [Answer::Value(value)] if value.as_bytes() == "1".as_bytes())
}

fn is_no_row(one: &JobResult) -> bool {
    let JobResult::Served(answers) = one else {
        return false;
    };
    matches!(answers.as_slice(), [Answer::Number(0)])
}

#[test]
fn four_workers_answer_in_order(rt: HostRuntime) -> Result<(), Fail> {
    let alloc = rt.alloc();
    let maps = four_buckets(alloc)?;
    let third = BucketId::new(3).ok_or("bucket")?;
    let second = BucketId::new(2).ok_or("bucket")?;
    let jobs = reads(alloc, third, second, 25)?;
    let (words, passes) = RefWords::open(alloc, 4, 4)?;
    let (results, passes) = answer_all(&rt, alloc, &maps, &jobs, &words, passes, &OpenGate)?;
    assert!(rt; results.len() == 50 && passes.len() == 4);
    for (place, result) in results.as_slice().iter().enumerate() {
        let is_right = if place % 2 == 0 {
            is_one(result)
        } else {
            is_no_row(result)
        };
        assert!(rt; is_right, "{place}");
    }
    let none_is_held = passes.iter().all(|pass| pass.held().is_none());
    assert!(rt; none_is_held);
    Ok(())
}

#[test]
fn a_closed_word_is_told(rt: HostRuntime) -> Result<(), Fail> {
    let alloc = rt.alloc();
    let maps = four_buckets(alloc)?;
    let third = BucketId::new(3).ok_or("bucket")?;
    let second = BucketId::new(2).ok_or("bucket")?;
    let jobs = reads(alloc, third, second, 1)?;
    let (words, mut passes) = RefWords::open(alloc, 4, 4)?;
    let mut pass = passes.pop().unwrap();
    words.close(&mut pass, 2);
    let (results, _) = answer_all(&rt, alloc, &maps, &jobs, &words, passes, &OpenGate)?;
    let [of_third, of_second] = results.as_slice() else {
        return Err(Fail::from("two results"));
    };
    assert!(rt; matches!(of_third, JobResult::Closed) && is_no_row(of_second));
    let is_empty = words.empty(&mut pass, 2);
    assert!(rt; is_empty, "nothing is left behind");
    Ok(())
}

/// Holds the first worker until another one has come, for at most 100,000,000 turns.
#[derive(Drop)]
struct Meeting {
    first: AtomicU32,
    second: AtomicU32,
    calls: AtomicU32,
    stages: AtomicU32,
}

impl Gate for Meeting {
    fn pass(&self, who: u32, call: u32, stage: u8) {
        self.calls.fetch_add(call, Ordering::SeqCst);
        self.stages.fetch_add(u32::from(stage), Ordering::SeqCst);
        let found = self
            .first
            .compare_exchange(0, who, Ordering::SeqCst, Ordering::SeqCst);
        if let Err(first) = found {
            if first != who {
                self.second.store(who, Ordering::SeqCst);
            }
            return;
        }
        for _ in 0..100_000_000u32 {
            if self.second.load(Ordering::SeqCst) != 0 {
                return;
            }
        }
    }
}

#[test]
fn two_workers_meet(rt: HostRuntime) -> Result<(), Fail> {
    let alloc = rt.alloc();
    let maps = four_buckets(alloc)?;
    let third = BucketId::new(3).ok_or("bucket")?;
    let second = BucketId::new(2).ok_or("bucket")?;
    let jobs = reads(alloc, third, second, 1)?;
    let (words, passes) = RefWords::open(alloc, 4, 4)?;
    let gate = Meeting {
        first: AtomicU32::new(0),
        second: AtomicU32::new(0),
        calls: AtomicU32::new(0),
        stages: AtomicU32::new(0),
    };
    let (results, _) = answer_all(&rt, alloc, &maps, &jobs, &words, passes, &gate)?;
    let [of_third, of_second] = results.as_slice() else {
        return Err(Fail::from("two results"));
    };
    assert!(rt; is_one(of_third) && is_no_row(of_second));
    for seen in [&gate.first, &gate.second] {
        let who = seen.load(Ordering::SeqCst);
        assert!(rt; 401 <= who && who <= 404, "{who}");
    }
    assert_eq!(rt; gate.calls.load(Ordering::SeqCst), 3);
    assert_eq!(rt; gate.stages.load(Ordering::SeqCst), 0);
    Ok(())
}
