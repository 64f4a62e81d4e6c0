//! The master of a configuration file.

use bm_config::{Config, ConfigMistake, Spot, UnknownKey, read_config_or_why, unknown_keys};
use bm_master_threads::{BeginFault, serve};
use bm_operator::{REFUSED, one_line, status};
use bm_replay::{MOST_BYTES, read_up_to};
use std::alloc::{AllocError, AllocGlobal, Global};
use std::fs::Files;
use std::io::{ErrorKind, Read, Write};
use std::net::{Net, TcpListener, TcpStream};
use std::process::{Processes, SystemProcess};
use std::random::RandomSource;
use std::sync::Wait;
use std::thread::Threads;
use std::time::Clock;
use std::{fs, io, str};

/// How large a piece of memory is given back before the first thread starts.
const LARGE_BYTES: usize = 1_048_576;

/// Why there is no configuration. It has no `thiserror`: what is told is a remark, whose text is
/// proved.
#[derive(Drop)]
enum ConfigRefusal {
    /// The file can't be read.
    File(io::Error),
    /// The text isn't UTF-8.
    Bytes,
    /// The text is no configuration, or memory is wanting.
    Mistake(ConfigMistake),
}

/// The configuration in a file, and the keys in it that nobody reads.
fn config_in<R: Files + AllocGlobal>(
    rt: &R,
    path: &str,
) -> Result<(Config, Vec<UnknownKey>), ConfigRefusal> {
    let alloc = rt.alloc();
    let mut file = match fs::open(rt, path) {
        Ok(file) => file,
        Err(error) => return Err(ConfigRefusal::File(error)),
    };
    let bytes = match read_up_to(MOST_BYTES, alloc, &mut file) {
        Ok(bytes) => bytes,
        Err(error) if error.kind() == ErrorKind::OutOfMemory => {
            return Err(ConfigRefusal::Mistake(ConfigMistake::Mem));
        }
        Err(error) => return Err(ConfigRefusal::File(error)),
    };
    let Ok(text) = str::from_utf8(bytes.as_slice()) else {
        return Err(ConfigRefusal::Bytes);
    };
    let config = match read_config_or_why(alloc, text) {
        Ok(config) => config,
        Err(mistake) => return Err(ConfigRefusal::Mistake(mistake)),
    };
    match unknown_keys(alloc, text) {
        Ok(unknown) => Ok((config, unknown)),
        Err(_) => Err(ConfigRefusal::Mistake(ConfigMistake::Mem)),
    }
}

/// Tells why there is no configuration, and answers the exit status. The first line has the key,
/// the second one the place and what was expected there, or what the system said. It is text
/// whatever `remarks` says: a text that is refused has no form of remarks.
fn refuse<F: Write + Drop>(alloc: Global, path: &str, refusal: ConfigRefusal, faults: F) -> u8 {
    let mut faults = faults;
    // Where it can't be told, the status still says that the configuration is refused.
    let _ = match refusal {
        ConfigRefusal::File(error) => {
            refuse_file(
                alloc,
                path,
                "file",
                format!(in alloc; "{error}"),
                &mut faults,
            )
        }
        ConfigRefusal::Bytes => {
            let why = String::from_str(alloc, "the text isn't UTF-8");
            refuse_file(alloc, path, "syntax", why, &mut faults)
        }
        ConfigRefusal::Mistake(ConfigMistake::Mem) => return status(&[], true),
        ConfigRefusal::Mistake(ConfigMistake::Syntax(error)) => {
            refuse_file(
                alloc,
                path,
                "syntax",
                format!(in alloc; "{error}"),
                &mut faults,
            )
        }
        ConfigRefusal::Mistake(ConfigMistake::At(spot)) => refuse_spot(alloc, spot, &mut faults),
    };
    REFUSED
}

// Tells why the file as a whole is none. What memory is wanting for is left out.
fn refuse_file<F: Write>(
    alloc: Global,
    path: &str,
    key: &str,
    why: Result<String, AllocError>,
    faults: &mut F,
) -> io::Result<()> {
    writeln!(faults, "bad configuration: {key}")?;
    let Ok(path) = one_line(alloc, path) else {
        return Ok(());
    };
    let Ok(why) = why else {
        return Ok(());
    };
    let why = why.as_str().trim_end();
    writeln!(faults, "{path}: {why}")
}

// Tells of the key at fault. Its place is left out where memory for it is wanting.
fn refuse_spot<F: Write>(alloc: Global, spot: Spot, faults: &mut F) -> io::Result<()> {
    let key = spot.key.name();
    match spot.text(alloc) {
        Ok(place) => writeln!(faults, "bad configuration: {key}\n{place}"),
        Err(_) => writeln!(faults, "bad configuration: {key}"),
    }
}

// Tells why the master could not begin, and answers the exit status.
fn not_begun<F: Write + Drop>(fault: BeginFault, faults: F) -> u8 {
    let mut faults = faults;
    // Where it can't be told, the status still says that it failed.
    let _ = writeln!(faults, "not begun, {fault}");
    fault.status()
}

// Has the allocator keep what is freed. The one of glibc gives the heap's end back to the system
// once more than 128 KiB lie free there. Then each answer of some thousand lines would take it
// anew. A larger piece that was freed raises that bound to twice its size (mallopt(3),
// M_MMAP_THRESHOLD).
fn keep_freed(alloc: Global) {
    if let Ok(piece) = vec![in alloc; 0u8; LARGE_BYTES] {
        drop(piece);
    }
}

/// Runs the master of the configuration in a file, over these streams, and answers the exit status.
/// It is 2 where the configuration is refused. Then `faults` has the first key at fault, and in a
/// second line where it stands and what was expected there. For a text that is no TOML `syntax` is
/// told in its place, and `file` for a file that can't be read. The system's parts are listed:
/// under `MasterHost` alone the toolchain refuses the proof, for want of types that only it names.
/// `last` is told why the master could not begin, once nobody has `faults` any more.
pub fn serve_file<R, I, O, F>(rt: &R, path: &str, input: I, output: O, faults: F, last: F) -> u8
where
    R: Wait
        + Threads
        + Clock
        + RandomSource
        + AllocGlobal
        + Files
        + Net<Listener = TcpListener, Stream = TcpStream>
        + Processes<Started = SystemProcess>
        + Copy
        + Drop
        + Send
        + Sync
        + 'static,
    I: Read + Drop + Send,
    O: Write + Drop + Send,
    F: Write + Drop + Send + 'static,
{
    keep_freed(rt.alloc());
    let (config, unknown) = match config_in(rt, path) {
        Ok(found) => found,
        Err(refusal) => return refuse(rt.alloc(), path, refusal, faults),
    };
    match serve(rt, config, unknown.as_slice(), input, output, faults) {
        Ok(status) => status,
        Err(fault) => not_begun(fault, last),
    }
}
