//! The files of the program: what comes from IN and goes to OUT, each a standard stream or a file.
ghost use Rattle.std.specs.Prelude.{◌≡◌, false, true};
ghost use Rattle.fx_chain.specs.Chain.{IsNewChain};
ghost use Rattle.fx_plan.specs.Planning.{planning};
ghost use Rattle.fx_plan.specs.Plans.{plan_bytes};
ghost use Rattle.fx_chain_run.specs.declared.report.Report.{Report};
ghost use Rattle.soxchain.specs.FileMessages.{open_message, rewrite_message};
ghost use Rattle.soxchain.specs.Finishing.{Finished, ready_for};
ghost use Rattle.soxchain.specs.Saying.{Says};
ghost use Rattle.soxchain_cli.specs.Heads.{true_head};
ghost use Rattle.soxchain_cli.specs.Named.{FailsOver, Files, WritesOver, file_writer};
ghost use Rattle.soxchain_cli.specs.Working.{Lines, Sounds, devices};

use crate::host::Host;
use crate::same_file::create_beside;
use fx_frame::{ByteIn, ByteOut};
use fx_frame_base::Rewind;
use fx_plan::{CommandLine, Endpoint};
use fx_sound::{HeadBytes, Source, head_bytes};
use soxchain::inner::{
    MessageWriter, Prepared, finish_for, prepare_for, tell_cannot_open, tell_cannot_rewrite,
    write_whole,
};
use soxchain_common::{Console, Openings};

/// Reports that a file cannot be opened, read or created, and returns the status.
pub fn cannot_open<M: ByteOut>(message_writer: &mut MessageWriter<M>, name: &str) -> u8
    ensures status { result ≡ 2 }
    ensures delivered { Says M.writes message_writer.old message_writer.new (open_message name.now) }
{
    tell_cannot_open(message_writer, name);
    2
}

/// Reports that the head of a file cannot be written again, and returns the status.
fn cannot_rewrite<M: ByteOut>(message_writer: &mut MessageWriter<M>, name: &str) -> u8
    ensures status { result ≡ 2 }
    ensures delivered { Says M.writes message_writer.old message_writer.new (rewrite_message name.now) }
{
    tell_cannot_rewrite(message_writer, name);
    2
}

/// Executes a command line, from IN to OUT, with the bytes of its coefficient files, and returns the status.
pub fn process<H: Host, M: ByteOut>(
    host: &mut H,
    line: &CommandLine,
    files: &[Vec<u8>],
    message_writer: &mut MessageWriter<M>,
) -> u8
    ensures { Lines (devices H.Input.reads H.Reader.reads H.Output.writes (file_writer H.Made.writes H.Made.rewinds))
        H.machine H.looks H.file_calls M.writes (record { opened = H.opened; unopened = H.unopened; closed = H.closed })
        line.now (plan_bytes files.now) host.old host.new message_writer.old message_writer.new result }
{
    match line.input() {
        Endpoint::Standard => {
            let reader = host.input();
            process_from(host, line, files, reader, message_writer)
        }
        Endpoint::Named(name) => match host.open(name) {
            Ok(file) => process_from(host, line, files, file, message_writer),
            Err(_) => cannot_open(message_writer, name),
        },
    }
}

/// Executes a command line on the sound of a reader. OUT is created only once the chain exists.
fn process_from<H: Host, R: ByteIn + Drop, M: ByteOut>(
    host: &mut H,
    line: &CommandLine,
    files: &[Vec<u8>],
    reader: R,
    message_writer: &mut MessageWriter<M>,
) -> u8
    ensures { Sounds (devices H.Input.reads H.Reader.reads H.Output.writes (file_writer H.Made.writes H.Made.rewinds))
        H.machine H.looks H.file_calls M.writes R.reads
        line.now (plan_bytes files.now) reader host.old host.new message_writer.old message_writer.new result }
{
    let mut source = Source::new(reader);
    let prepared = match prepare_for(host.memory(), line, files, &mut source, message_writer) {
        Ok(prepared) => prepared,
        Err(status) => return status,
    };
    match line.output() {
        Endpoint::Standard => {
            let mut output = host.output();
            let (status, _report) = finish_for(
                line,
                prepared,
                &mut source,
                &mut output,
                message_writer,
            );
            host.leave(output);
            status
        }
        Endpoint::Named(name) => match create_beside(host, line.input(), name, &prepared) {
            Some(mut file) => {
                let status = process_to(
                    line,
                    prepared,
                    &mut source,
                    &mut file,
                    name,
                    message_writer,
                );
                host.close(file);
                status
            }
            None => cannot_open(message_writer, name),
        },
    }
}

/// Runs what is prepared for a line. Returns the status, and the head with the true number of frames.
fn finish_with_head<R: ByteIn, W: ByteOut, M: ByteOut>(
    line: &CommandLine,
    prepared: Prepared,
    source: &mut Source<R>,
    output: &mut W,
    message_writer: &mut MessageWriter<M>,
) -> (u8, HeadBytes)
    requires { IsNewChain (planning prepared.plan) prepared.chain }
    ensures { (report : Report)
        × Finished R.reads W.writes (ready_for line.now prepared) source.old source.new output.old output.new
        (Says M.writes message_writer.old message_writer.new) result.0 report
        × (result.1 ≡ true_head (planning prepared.plan) report) }
{
    let plan = &prepared.plan;
    let (kind, coding) = (plan.kind(), plan.coding());
    let (rate, channels) = (plan.rate(), plan.channels());
    let (status, report) = finish_for(line, prepared, source, output, message_writer);
    let head = head_bytes(kind, rate, channels, coding, Some(report.frames_out));
    (status, head)
}

/// Runs what is prepared and writes it to a new file. Without a fault the head is then written once more, with the true sizes.
/// Returns the status.
fn process_to<R: ByteIn, F: Rewind, M: ByteOut>(
    line: &CommandLine,
    prepared: Prepared,
    source: &mut Source<R>,
    file: &mut F,
    name: &str,
    message_writer: &mut MessageWriter<M>,
) -> u8
    requires { IsNewChain (planning prepared.plan) prepared.chain }
    ensures { Files R.reads (file_writer F.writes F.rewinds) M.writes (ready_for line.now prepared) source.old source.new
        file.old file.new name.now message_writer.old message_writer.new result }
{
    let (status, head) = finish_with_head(line, prepared, source, file, message_writer);
    if status != 0 {
        return status;
    }
    if write_over(file, head.as_slice()) {
        0
    } else {
        cannot_rewrite(message_writer, name)
    }
}

/// Writes bytes over the beginning of a file, and flushes them: false where one call of it failed.
fn write_over<F: Rewind>(file: &mut F, bytes: &[u8]) -> bool
    ensures whole { result ≡ true → WritesOver (record { writes = F.writes; rewinds = F.rewinds }) file.old file.new bytes.now }
    ensures failed { result ≡ false → FailsOver (record { writes = F.writes; rewinds = F.rewinds }) file.old file.new bytes.now }
{
    file.rewind().is_ok() && write_whole(file, bytes)
}
