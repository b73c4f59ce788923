//! Scripts that are run.

ghost use Rattle.std.specs.Prelude.{◌≤◌, [], true};

use desk_io::{MemSink, MemSource};
use desk_types::{Call, Fault, Reply, Service};
use query_words::NoMemory;
use script_api::ScriptEnd::{self, BadLine, Ended, LongLine, TooManyLines};
use script_api::script;
use std::alloc::Global;
use std::process::Abort;
use std::test::Fail;

/// A service whose journal has room for no entry. It says so of a call at an even moment, and has no
/// memory for any other.
#[derive(Drop)]
struct Full;

impl Service for Full {
    ghost use Rattle.desk_types.specs.SettingsValue.{usual};
    ghost use Rattle.desk_types.specs.State.{empty};

    type Home = u64;

    ghost home = { λ s. 0 };

    ghost service = { λ s. record { me = 1; opening = empty (record usual { journal = 0 }); seen = []; sure = true } };

    fn history_is_legal(&self) {}

    #[tactic(auto, unfolding(desk_types::specs::Journal::is_full))]
    fn call(&mut self, moment: u64, _call: Call) -> Result<Reply, Fault> {
        if moment % 2 == 0 {
            return Err(Fault::JournalFull {
                entries: 0,
                bytes: 0,
            });
        }
        Err(Fault::NoMemory)
    }
}

/// How the script of some bytes in pieces of at most `cut` ends, where the reads and writes of these
/// numbers fail, and what is written.
fn ran(
    alloc: Global,
    bytes: &[u8],
    cut: u64,
    reads: Vec<u64>,
    writes: Vec<u64>,
) -> Result<(ScriptEnd, Vec<u8>), NoMemory>
    requires { 1 ≤ cut }
{
    let mut input = MemSource::new(bytes.to_vec(alloc)?, cut, reads);
    let mut output = MemSink::new(alloc, 100_000, 100_000, writes)?;
    let end = script(alloc, &mut Full, &mut input, &mut output);
    Ok((end, output.bytes().to_vec(alloc)?))
}

/// The lines of some answers of the service: `m` of want of memory, `j` of a full journal.
fn lines_of(alloc: Global, answers: &str) -> Result<Vec<u8>, NoMemory> {
    let mut lines = Vec::new(alloc);
    for answer in answers.as_bytes() {
        match answer {
            b'm' => lines.extend_from_slice(b"fault memory\n")?,
            _ => lines.extend_from_slice(b"fault journal\n")?,
        }
    }
    Ok(lines)
}

/// Checks how scripts end and which answers are written, where they come in pieces of at most `cut` bytes.
fn check_scripts(
    rt: &(impl Abort + AllocGlobal),
    cut: u64,
    rows: &[(&[u8], ScriptEnd, &str)],
) -> Result<(), Fail>
    requires { 1 ≤ cut }
{
    let alloc = rt.alloc();
    for (bytes, end, answers) in rows {
        let (found, written) = ran(alloc, bytes, cut, Vec::new(alloc), Vec::new(alloc))?;
        assert!(rt; found == *end, "{bytes:?}");
        assert!(rt; written == lines_of(alloc, answers)?, "{bytes:?}");
    }
    Ok(())
}

/// A script, how it ends, and its answers.
const SCRIPTS: [(&[u8], ScriptEnd, &str); 7] = [
    (b"", Ended, ""),
    (b"1 click 1\n2 click 1\n", Ended, "mj"),
    (b"1 click 1\r\n2 click 1", Ended, "mj"),
    (b"#\n\n1 click 1\n# \xFF\n", Ended, "m"),
    (b"# a\n\n1 click 1\nclick 1\n2 click 1\n", BadLine(4), "m"),
    (b"1 click 1\r", BadLine(1), ""),
    (b"\xFF\n", BadLine(1), ""),
];

#[test]
fn a_script_ends_by_its_lines_in_any_pieces(rt: HostRuntime) -> Result<(), Fail> {
    check_scripts(&rt, 1, &SCRIPTS)?;
    check_scripts(&rt, 7, &SCRIPTS)?;
    check_scripts(&rt, 4_096, &SCRIPTS)
}

/// A call, so many bytes of one value, and another call.
fn around(alloc: Global, byte: u8, count: usize) -> Result<Vec<u8>, NoMemory> {
    let mut bytes = b"1 click 1\n".to_vec(alloc)?;
    bytes.extend_from_slice(&vec![in alloc; byte; count]?)?;
    bytes.extend_from_slice(b"\n2 click 1\n")?;
    Ok(bytes)
}

/// How many bytes of which value stand between two calls, how the script ends, and its answers.
const AROUND: [(u8, usize, ScriptEnd, &str); 4] = [
    (b'#', 4_096, Ended, "mj"),
    (b'#', 4_097, LongLine(2), "m"),
    (b'\n', 999_997, Ended, "mj"),
    (b'\n', 999_998, TooManyLines, "m"),
];

#[test]
fn a_script_ends_at_a_limit(rt: HostRuntime) -> Result<(), Fail> {
    let alloc = rt.alloc();
    for (byte, count, end, answers) in AROUND {
        let bytes = around(alloc, byte, count)?;
        let (found, written) = ran(alloc, &bytes, 4_096, Vec::new(alloc), Vec::new(alloc))?;
        assert!(rt; found == end, "{count}");
        assert!(rt; written == lines_of(alloc, answers)?, "{count}");
    }
    Ok(())
}

const THREE: &[u8] = b"1 click 1\n3 click 1\n5 click 1\n";

/// The read in pieces of seven that fails, and how many lines were read whole before it.
const READS: [(u64, usize); 6] = [(1, 0), (2, 0), (3, 1), (4, 2), (5, 2), (6, 3)];

#[test]
fn a_failed_read_ends_a_script_behind_a_line(rt: HostRuntime) -> Result<(), Fail> {
    let alloc = rt.alloc();
    for (read, lines) in READS {
        let (end, written) = ran(alloc, THREE, 7, vec![in alloc; read]?, Vec::new(alloc))?;
        assert!(rt; end == ScriptEnd::ReadFault, "read {read}");
        assert_eq!(rt; written.len(), 13 * lines, "read {read}");
    }
    let (end, _) = ran(alloc, THREE, 7, vec![in alloc; 7]?, Vec::new(alloc))?;
    assert!(rt; end == Ended, "no seventh read is made");
    Ok(())
}

/// The write that fails, where each read gives a line, and how many lines were written before it.
const WRITES: [(u64, usize); 3] = [(1, 0), (2, 1), (3, 2)];

#[test]
fn each_answer_is_written_before_the_next_read(rt: HostRuntime) -> Result<(), Fail> {
    let alloc = rt.alloc();
    for (write, lines) in WRITES {
        let (end, written) = ran(alloc, THREE, 10, Vec::new(alloc), vec![in alloc; write]?)?;
        assert!(rt; end == ScriptEnd::WriteFault, "write {write}");
        assert_eq!(rt; written.len(), 13 * lines, "write {write}");
    }
    let (end, written) = ran(alloc, THREE, 10, Vec::new(alloc), vec![in alloc; 4]?)?;
    assert!(rt; end == Ended, "no fourth write is made");
    assert_eq!(rt; written.len(), 39);
    Ok(())
}
