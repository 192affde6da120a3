// The slices that a window takes: two work slices, and one for its certificate.
ghost use Rattle.std.specs.Prelude.{◌≡◌, length};
ghost use Rattle.certificate.specs.Inner.Room.{slices_number, work_slices_number};
ghost use Rattle.netlist.specs.Refusal.{number_said};

use crate::layout::HEAD_LENGTH;
use crate::step::STEP_LENGTH;
use netlist::Refusal;

// Refused where a work slice is too short for a window of this size.
pub fn check_work_slices(size: usize, first: &[u8], second: &[u8]) -> Result<(), Refusal>
    ensures { number_said result ≡ work_slices_number size (length first.now) (length second.now) }
{
    if first.len() < size || second.len() < size {
        return Err(Refusal::WorkSliceShort);
    }
    Ok(())
}

// Refused where a slice is too short for a window of this size: a work slice, or the certificate's, which
// has this room. A certificate has at most a step for each place of the window in each of its two runs;
// dividing, no product can leave its type.
pub fn check_slices(size: usize, first: &[u8], second: &[u8], room: usize) -> Result<(), Refusal>
    ensures { number_said result ≡ slices_number size (length first.now) (length second.now) room }
{
    check_work_slices(size, first, second)?;
    if room < HEAD_LENGTH || (room - HEAD_LENGTH) / (2 * STEP_LENGTH) < size {
        return Err(Refusal::CertificateSliceShort);
    }
    Ok(())
}
