// The bytes of a certificate, written into a lent slice as far as that has room.
ghost use Rattle.std.specs.Prelude.{◌≡◌, ◌*◌, ◌+◌, ◌++◌};
ghost use Rattle.std.proofs.lemmas.List.Edits.{sets};
ghost use Rattle.certificate.specs.Inner.Parts.{pairs_bytes};
ghost use Rattle.certificate.specs.Written.{head_bytes, step_bytes};
ghost use Rattle.values.specs.Lists.{bytes₄};

use crate::layout::{HEAD_LENGTH, Head, pair_place};
use crate::step::{STEP_LENGTH, Step};
use values::{copy, put_u16, put_u32, store};

// Writes a step at the start of a part of the certificate. An array of its bytes, copied, took 1.02 to 1.04
// times the instructions: sweeps, which call this, are then compiled in more pieces.
fn write_step(out: &mut [u8], step: Step)
    ensures { out.new ≡ sets out.old 0 (step_bytes step) }
{
    put_u16(out, 0, step.node);
    store(out, 2, step.frame);
    store(out, 3, step.value);
    put_u16(out, 4, step.via);
    store(out, 6, step.during);
}

// Writes a step at a place of a run. A run without room, as where nothing is to be written yet,
// stays as it is.
pub fn put_step(run: &mut [u8], place: usize, step: Step)
    ensures { run.new ≡ sets run.old place (step_bytes step) }
{
    if run.len() <= place {
        return;
    }
    write_step(&mut run[place..], step);
}

// Writes the pair of branch v.
fn put_pair(certificate: &mut [u8], v: u8, offset: u32, length: u32)
    ensures { certificate.new ≡ sets certificate.old (9 + 8 * v) (bytes₄ offset ++ bytes₄ length) }
{
    let place = pair_place(v);
    put_u32(certificate, place, offset);
    put_u32(certificate, place + 4, length);
}

// Writes the pairs of two runs that have so many steps: the first run starts behind the head, the second
// follows it.
fn write_pairs(certificate: &mut [u8], zero_steps: u16, one_steps: u16)
    ensures { certificate.new ≡ sets certificate.old 9 (pairs_bytes (7 * zero_steps) (7 * one_steps)) }
{
    let start = HEAD_LENGTH as u32;
    let first = STEP_LENGTH as u32 * zero_steps as u32;
    let second = STEP_LENGTH as u32 * one_steps as u32;
    put_pair(certificate, 0, start, first);
    put_pair(certificate, 1, start + first, second);
}

// Writes what stands before the steps; the runs have so many steps.
#[tactic(auto, unfolding(crate::specs::Written::head_bytes))]
pub fn write_head(certificate: &mut [u8], head: Head, zero_steps: u16, one_steps: u16)
    ensures { certificate.new ≡ sets certificate.old 0 (head_bytes head (7 * zero_steps) (7 * one_steps)) }
{
    copy(&head.to_bytes(), certificate);
    write_pairs(certificate, zero_steps, one_steps);
}
