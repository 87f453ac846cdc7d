// The program: reads a log from standard input, judges it and prints its report. What the report is, is proved of the function `report`, and that
// it is the report of what was read, of the function `run`. Which bytes the system gives and takes is left to std.
#![tactic(auto)]

mod report;

ghost use Rattle.std.specs.Prelude.{ℕ, ◌≤◌, ◌<◌, ◌≡◌, take, length, IfOk, OnOk, OnErr};
ghost use Rattle.std.specs.Io.KnownBytes.{Consumes, Appends, IsAtEnd};
ghost use Rattle.judge_cli.specs.Run.{JudgesInput, LeavesFront};

use report::{REPORT, report};
use std::io;
use std::io::{ErrorKind, Read, Write};

// One byte more than the longest log, so that bytes behind a log are seen. Whatever follows is not read.
const LOG: usize = 12292;

// Reads until the buffer is full or the input ends. Answers how many bytes it put at the buffer's start. A read that fails ends it.
fn read_full<R: Read>(input: &mut R, buffer: &mut [u8]) -> io::Result<usize>
    ensures within { IfOk result (λ n. n ≤ length buffer.new) }
    ensures bytes { IfOk result (λ n. Consumes (R.remaining input.old) (R.remaining input.new) (take n buffer.new)) }
    ensures end { IfOk result (λ n. n < length buffer.new → IsAtEnd (R.remaining input.new)) }
    ensures failed { OnErr result ((n : ℕ) × (n < length buffer.new) × Consumes (R.remaining input.old) (R.remaining input.new) (take n buffer.new)) }
{
    let mut done = 0;
    while done < buffer.len() {
        let n = input.read(&mut buffer[done..])?;
        if n == 0 {
            break;
        }
        done += n;
    }
    Ok(done)
}

// Writes all of a text. A write that fails ends it, an interrupted one too, and so does one that takes nothing, by the error that `write_all` gives.
fn write_full<W: Write>(output: &mut W, text: &[u8]) -> io::Result<()>
    ensures bytes { OnOk result (Appends (W.contents output.old) (W.contents output.new) text.now) }
    ensures failed { OnErr result ((n : ℕ) × (n < length text.now) × Appends (W.contents output.old) (W.contents output.new) (take n text.now)) }
{
    let mut done = 0;
    while done < text.len() {
        let taken = output.write(&text[done..])?;
        if taken == 0 {
            let message = "failed to write whole buffer";
            return Err(io::Error::new(ErrorKind::WriteZero, message));
        }
        done += taken;
    }
    Ok(())
}

// Judges the log that the input has and writes its report.
fn run<R: Read, W: Write>(input: &mut R, output: &mut W) -> io::Result<()>
    ensures judges { OnOk result (JudgesInput (R.remaining input.old) (W.contents output.old) (W.contents output.new)) }
    ensures failed { OnErr result (LeavesFront (R.remaining input.old) (R.remaining input.new) (W.contents output.old) (W.contents output.new)) }
{
    let mut log = [0u8; LOG];
    let read = read_full(input, &mut log)?;
    let mut text = [0u8; REPORT];
    let written = report(&log[..read], &mut text);
    write_full(output, &text[..written])
}

fn main(rt: HostRuntime) -> io::Result<()> {
    run(&mut rt.stdin(), &mut rt.stdout())
}
