//! The text of a plan.

ghost use Rattle.std.specs.Prelude.{◌≡◌, ◌≤◌, ◌++◌, length, OnOk, IfOk};
ghost use Rattle.std.specs.List.{flat_map};
ghost use Rattle.vs_waves.specs.Plan.{plan_of};
ghost use Rattle.vs_plan.specs.Text.{number, ideal_line, waves_line, move_text, wave_line, wave_lines, forced_line, plan_text};

use std::alloc::Global;
use vs_base::NoMemory;
use vs_waves::{Forced, Move, Waves};

/// Appends a text.
fn put_text(out: &mut Vec<u8>, text: &[u8]) -> Result<(), NoMemory>
    ensures { OnOk result (out.new.items ≡ out.old.items ++ text.now) }
{
    out.extend_from_slice(text)?;
    Ok(())
}

/// Appends a blank and a number.
fn put_number(out: &mut Vec<u8>, n: u32) -> Result<(), NoMemory>
    ensures { OnOk result (out.new.items ≡ out.old.items ++ number n) }
{
    out.push(b' ')?;
    vs_text::put_number(out, u64::from(n))
}

fn put_numbers(out: &mut Vec<u8>, numbers: &[u32]) -> Result<(), NoMemory>
    ensures { OnOk result (out.new.items ≡ out.old.items ++ flat_map number numbers.now) }
{
    for n in numbers {
        put_number(out, *n)?;
    }
    Ok(())
}

fn put_ideals(out: &mut Vec<u8>, ideals: &[u32]) -> Result<(), NoMemory>
    ensures { OnOk result (out.new.items ≡ out.old.items ++ ideal_line ideals.now) }
{
    put_text(out, b"ideal")?;
    put_numbers(out, ideals)?;
    put_text(out, b"\n")
}

fn put_count(out: &mut Vec<u8>, waves: u32) -> Result<(), NoMemory>
    ensures { OnOk result (out.new.items ≡ out.old.items ++ waves_line waves) }
{
    put_text(out, b"waves")?;
    put_number(out, waves)?;
    put_text(out, b"\n")
}

fn put_move(out: &mut Vec<u8>, m: &Move) -> Result<(), NoMemory>
    ensures { OnOk result (out.new.items ≡ out.old.items ++ move_text m.now) }
{
    put_number(out, u32::from(m.giver.get()))?;
    put_number(out, u32::from(m.taker.get()))?;
    put_number(out, m.number)
}

fn put_moves(out: &mut Vec<u8>, moves: &[Move]) -> Result<(), NoMemory>
    ensures { OnOk result (out.new.items ≡ out.old.items ++ flat_map move_text moves.now) }
{
    for m in moves {
        put_move(out, m)?;
    }
    Ok(())
}

/// Appends the wave of this number.
fn put_wave(out: &mut Vec<u8>, number: u32, moves: &[Move]) -> Result<(), NoMemory>
    ensures { OnOk result (out.new.items ≡ out.old.items ++ wave_line number moves.now) }
{
    put_text(out, b"wave")?;
    put_number(out, number)?;
    put_moves(out, moves)?;
    put_text(out, b"\n")
}

fn put_waves(out: &mut Vec<u8>, waves: &Waves) -> Result<(), NoMemory>
    requires { length waves.now.items ≤ 60000 }
    ensures { OnOk result (out.new.items ≡ out.old.items ++ wave_lines 1 (plan_of waves.now.items)) }
{
    for (i, wave) in waves.as_slice().iter().enumerate() {
        put_wave(out, i as u32 + 1, wave.as_slice())?;
    }
    Ok(())
}

/// Appends the line of the set that forces the number of waves, if there is one.
fn put_forced(out: &mut Vec<u8>, forced: Option<Forced>) -> Result<(), NoMemory>
    ensures { OnOk result (out.new.items ≡ out.old.items ++ forced_line forced) }
{
    let Some(forced) = forced else {
        return Ok(());
    };
    put_text(out, b"forced")?;
    put_number(out, u32::from(forced.set.get()))?;
    put_text(out, if forced.gives { b" gives" } else { b" takes" })?;
    put_number(out, forced.load)?;
    put_text(out, b" limit")?;
    put_number(out, forced.limit)?;
    put_text(out, b"\n")
}

/// The text of a plan: the ideals, the waves and their moves, and the set that forces their number.
pub fn plan_text(
    alloc: Global,
    ideals: &[u32],
    waves: &Waves,
    forced: Option<Forced>,
) -> Result<Vec<u8>, NoMemory>
    requires { length waves.now.items ≤ 60000 }
    ensures { IfOk result (λ text. text.items ≡ plan_text ideals.now (plan_of waves.now.items) forced) }
{
    let mut out = Vec::new(alloc);
    put_ideals(&mut out, ideals)?;
    put_count(&mut out, waves.len() as u32)?;
    put_waves(&mut out, waves)?;
    put_forced(&mut out, forced)?;
    put_text(&mut out, b"end\n")?;
    Ok(out)
}
