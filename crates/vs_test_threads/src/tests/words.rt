//! Reference words, by one thread and by three.

ghost use Rattle.std.specs.Prelude.{◌≡◌, ◌<◌, None, IfOk};

use std::alloc::Global;
use std::test::Fail;
use std::thread::{Threads, join};
use vs_base::NoMemory;
use vs_words::{Pass, RefWords};

/// Eight words and three passes.
fn three(alloc: Global) -> Result<(RefWords, Pass, Pass, Pass), NoMemory>
    ensures words { IfOk result (λ r. r.0.words ≡ 8) }
    ensures passes { IfOk result (λ r. (r.1.of ≡ r.0) × (r.2.of ≡ r.0) × (r.3.of ≡ r.0)) }
    ensures free { IfOk result (λ r. (r.1.held ≡ None) × (r.2.held ≡ None) × (r.3.held ≡ None)) }
{
    let (words, mut passes) = RefWords::open(alloc, 8, 3)?;
    let a = passes.pop().unwrap();
    let b = passes.pop().unwrap();
    let c = passes.pop().unwrap();
    Ok((words, a, b, c))
}

#[test]
fn a_word_is_closed_and_emptied(rt: HostRuntime) -> Result<(), Fail> {
    let (words, mut a, mut b, mut c) = three(rt.alloc())?;
    let a_takes = words.take(&mut a, 5);
    assert!(rt; a_takes && a.held() == Some(5));
    words.close(&mut b, 5);
    let is_empty = words.empty(&mut b, 5);
    assert!(rt; !is_empty, "a holds it");
    let c_takes = words.take(&mut c, 5);
    assert!(rt; !c_takes && c.held().is_none());
    words.give(&mut a);
    let is_empty = words.empty(&mut b, 5);
    assert!(rt; is_empty && a.held().is_none());
    let a_takes = words.take(&mut a, 5);
    assert!(rt; !a_takes);
    let a_takes_another = words.take(&mut a, 7);
    assert!(rt; a_takes_another, "only word 5 is closed");
    assert_eq!(rt; words.value_at_end(a, 7), 1);
    Ok(())
}

#[test]
fn an_open_word_is_not_empty(rt: HostRuntime) -> Result<(), Fail> {
    let (words, mut a, mut b, mut c) = three(rt.alloc())?;
    let is_empty = words.empty(&mut a, 3);
    assert!(rt; !is_empty, "nobody has closed it");
    let b_takes = words.take(&mut b, 3);
    let c_takes = words.take(&mut c, 3);
    assert!(rt; b_takes && c_takes);
    assert_eq!(rt; words.value_at_end(a, 3), 2);
    Ok(())
}

/// Takes word 5 and gives it back, this often.
fn take_and_give(words: &RefWords, mut pass: Pass, times: u32) -> Pass
    requires { (pass.of ≡ words.now) × (pass.held ≡ None) × (5 < words.now.words) }
    ensures { (result.of ≡ words.now) × (result.held ≡ None) }
{
    for _ in 0..times {
        if words.take(&mut pass, 5) {
            words.give(&mut pass);
        }
    }
    pass
}

/// Closes word 5.
fn close(words: &RefWords, mut pass: Pass) -> Pass
    requires { (pass.of ≡ words.now) × (5 < words.now.words) }
    ensures { result.of ≡ words.now }
{
    words.close(&mut pass, 5);
    pass
}

/// Two threads that take word 5 and give it back.
fn both_take<R: Threads + Sync>(rt: &R, words: &RefWords, a: Pass, b: Pass) -> (Pass, Pass)
    requires { (a.of ≡ words.now) × (a.held ≡ None) × (b.of ≡ words.now) × (b.held ≡ None) × (5 < words.now.words) }
    ensures { (result.0.of ≡ words.now) × (result.0.held ≡ None) }
{
    join(
        rt,
        || take_and_give(words, a, 10_000),
        || take_and_give(words, b, 10_000),
    )
}

#[test]
fn two_threads_take_while_a_third_closes(rt: HostRuntime) -> Result<(), Fail> {
    let (words, a, b, c) = three(rt.alloc())?;
    let shared = &words;
    let ((mut a, _b), _c) = join(&rt, || both_take(&rt, shared, a, b), || close(shared, c));
    let is_empty = words.empty(&mut a, 5);
    assert!(rt; is_empty);
    let takes = words.take(&mut a, 5);
    assert!(rt; !takes);
    Ok(())
}
