// Prints the report on standard input: B, F (a byte each) and a netlist.
#![tactic(auto)]

ghost use Rattle.std.specs.Prelude.{◌<◌, ◌≤◌, IfOk, length, take};
ghost use Rattle.std.specs.Io.KnownBytes.{Consumes, IsAtEnd};
ghost use Rattle.report_text.specs.Turns.{ProgramBuffers, slices};

use report_text::{LINE_LENGTH, Progress};
use std::io;
use std::io::{Read, Write};

// Reads until the buffer is full or the input ends, and returns how many bytes were read; they stand at
// the buffer's start. A pipe may give them in pieces.
fn read_input<R: Read>(input: &mut R, buffer: &mut [u8]) -> io::Result<usize>
    ensures bound { IfOk result (λ n. n ≤ length buffer.new) }
    ensures bytes { IfOk result (λ n. Consumes (R.remaining input.old) (R.remaining input.new) (take n buffer.new)) }
    ensures end { IfOk result (λ n. n < length buffer.new → IsAtEnd (R.remaining input.new)) }
{
    let mut done = 0;
    // A read goes on by as many bytes as came, so that no count of reads is known before.
    while done < buffer.len() {
        let count = input.read(&mut buffer[done..])?;
        if count == 0 {
            break;
        }
        done += count;
    }
    Ok(done)
}

// Prints each line as it is made, and stops at the first that the output does not take whole: no
// line, and so no total, follows one that is missing. The report's buffers go side by side, as `next_line`
// takes them.
fn print_report<W: Write>(
    output: &mut W,
    input: &[u8],
    known: &mut [u8],
    touched: &mut [u8],
    certificate: &mut [u8],
    line: &mut [u8],
) -> io::Result<()>
    requires { ProgramBuffers (slices known.old touched.old certificate.old line.old) }
{
    let mut progress = Progress::begin(input);
    // How many lines there are is known only when the report is over: nothing is counted here.
    while !progress.is_over() {
        progress = progress.next_line(input, known, touched, certificate, line);
        let end = progress.length;
        output.write_all(&line[..end])?;
    }
    Ok(())
}

// A sound netlist has at most 53,252 bytes, so input that is cut off at the buffer's end is refused
// as it would be whole. Where a read or a write fails, the error ends the program. The buffers are arrays of
// 65,536 bytes, as document 01 names them.
fn main(rt: HostRuntime) -> io::Result<()> {
    let mut input = [0u8; 65536];
    let mut known = [0u8; 65536];
    let mut touched = [0u8; 65536];
    let mut certificate = [0u8; 65536];
    let mut line = [0u8; LINE_LENGTH];
    let length = read_input(&mut rt.stdin(), &mut input)?;
    print_report(
        &mut rt.stdout(),
        &input[..length],
        &mut known,
        &mut touched,
        &mut certificate,
        &mut line,
    )
}
