// Runs test vectors: reads commands from standard input, and prints a line of text for each build, lookup, first entry and write.
//
// A command is 16 bytes: its kind, three flags (1 for yes: secure AVIC, a subleaf is given, the subleaf is enforced), and the
// numbers a, b and edition of 4 bytes, the lowest first. The page set is all zeros at the start and changes by commands alone.
//   n  the page set has a bytes from now on
//   d  b bytes follow, which go into the page set at a
//   b  build
//   l  look leaf a up, with subleaf b
//   f  find the first entry of leaf a, with subleaf b
//   w  write the image into a bytes that hold A5h
// tests/lists/make_vectors.py makes the commands, and the lines that are to come out.
#![tactic(auto)]

ghost use Rattle.std.specs.Prelude.{◌≤◌, length, IfOk};

use answers::{SnpCpuidBuilt, SnpCpuidFirst, SnpCpuidFound, SnpCpuidWritten};
use std::io;
use std::io::{Read, Write};

const LONGEST_SET: usize = 65537;

const LONGEST_LENT: usize = 1024;

const COMMAND_SIZE: usize = 16;

const DIGITS: [u8; 16] = *b"0123456789abcdef";

#[derive(Clone, Copy)]
struct Command {
    kind: u8,
    secure_avic: bool,
    has_subleaf: bool,
    enforce_subleaf: bool,
    a: u32,
    b: u32,
    edition: u32,
}

// A read or a write that fails ends the run with its error.
fn main(rt: HostRuntime) -> io::Result<()> {
    let mut set = [0u8; LONGEST_SET];
    run(&mut rt.stdin(), &mut rt.stdout(), &mut set)
}

// A proved loop has to end, and nothing says that the input does. So the loop counts its turns, up to a number that no run reaches.
fn run<R: Read, W: Write>(input: &mut R, output: &mut W, set: &mut [u8]) -> io::Result<()> {
    let mut length: usize = 0;
    for _ in 0..u32::MAX {
        let Some(n) = next_command(input, output, set, length)? else {
            return Ok(());
        };
        length = n;
    }
    Ok(())
}

// Reads a command and does it: how many bytes the page set has then, or `None` if the run ends. The input ends between two commands, else it is
// malformed.
fn next_command<R: Read, W: Write>(
    input: &mut R,
    output: &mut W,
    set: &mut [u8],
    length: usize,
) -> io::Result<Option<usize>> {
    let mut head = [0u8; COMMAND_SIZE];
    match read_full(input, &mut head)? {
        COMMAND_SIZE => execute(input, output, parse(&head), set, length),
        0 => Ok(None),
        _ => bad_vector(output),
    }
}

// Reads until `buf` is full or the input ends, and tells how many bytes it put at the start of `buf`.
fn read_full<R: Read>(input: &mut R, buf: &mut [u8]) -> io::Result<usize>
    ensures { IfOk result (λ n. n ≤ length buf.new) }
{
    let mut done = 0;
    // kept as a while: one read may give fewer bytes than there is room, and the library's methods fail at an early end or need a `Vec`
    while done < buf.len() {
        let n = input.read(&mut buf[done..])?;
        if n == 0 {
            break;
        }
        done += n;
    }
    Ok(done)
}

// The command of 16 bytes.
fn parse(head: &[u8; COMMAND_SIZE]) -> Command {
    Command {
        kind: head[0],
        secure_avic: head[1] == 1,
        has_subleaf: head[2] == 1,
        enforce_subleaf: head[3] == 1,
        a: pages::word_at(head, 4),
        b: pages::word_at(head, 8),
        edition: pages::word_at(head, 12),
    }
}

// Changes the page set, or asks the library. The length is looked at where it is used.
fn execute<R: Read, W: Write>(
    input: &mut R,
    output: &mut W,
    command: Command,
    set: &mut [u8],
    length: usize,
) -> io::Result<Option<usize>> {
    match command.kind {
        b'n' => Ok(Some(command.a as usize)),
        b'd' => patch(
            input,
            output,
            set,
            command.a as usize,
            command.b as usize,
            length,
        ),
        _ => {
            let Some(pages) = set.get(..length) else {
                return bad_vector(output);
            };
            if answer(output, command, pages)? {
                return Ok(Some(length));
            }
            bad_vector(output)
        }
    }
}

// Says that a command is malformed, and ends the run.
fn bad_vector<W: Write>(output: &mut W) -> io::Result<Option<usize>> {
    output.write_all(b"bad vector\n")?;
    Ok(None)
}

// Reads `count` bytes into the page set.
fn patch<R: Read, W: Write>(
    input: &mut R,
    output: &mut W,
    set: &mut [u8],
    from: usize,
    count: usize,
    length: usize,
) -> io::Result<Option<usize>> {
    if from > set.len() {
        return bad_vector(output);
    }
    if count > set.len() - from {
        return bad_vector(output);
    }
    let end = from + count;
    if read_full(input, &mut set[from..end])? != count {
        return bad_vector(output);
    }
    Ok(Some(length))
}

// Calls the library and prints its answer; false where the command makes no sense.
fn answer<W: Write>(output: &mut W, command: Command, set: &[u8]) -> io::Result<bool> {
    let kind = command.kind;
    let avic = command.secure_avic;
    let edition = command.edition;
    match kind {
        b'b' => print_built(output, snp_cpuid::snp_cpuid_build(set, avic, edition))?,
        b'l' => print_found(output, look_up(command, set))?,
        b'f' => print_first(
            output,
            snp_cpuid::snp_cpuid_first_entry(set, command.a, command.b),
        )?,
        b'w' => return write(output, set, avic, edition, command.a as usize),
        _ => return Ok(false),
    }
    Ok(true)
}

// The row that the command names.
fn look_up(command: Command, set: &[u8]) -> SnpCpuidFound {
    snp_cpuid::snp_cpuid_lookup(
        set,
        command.secure_avic,
        command.edition,
        command.a,
        command.has_subleaf,
        command.b,
        command.enforce_subleaf,
    )
}

// Lends `room` bytes, all A5h, to the writer; false where there are not as many.
fn write<W: Write>(
    output: &mut W,
    set: &[u8],
    avic: bool,
    edition: u32,
    room: usize,
) -> io::Result<bool> {
    let mut lent = [0xA5u8; LONGEST_LENT];
    if room > LONGEST_LENT {
        return Ok(false);
    }
    write_into(output, set, avic, edition, &mut lent[..room])?;
    Ok(true)
}

// Writes, and prints what the lent bytes are afterwards.
fn write_into<W: Write>(
    output: &mut W,
    set: &[u8],
    avic: bool,
    edition: u32,
    lent: &mut [u8],
) -> io::Result<()> {
    let written = snp_cpuid::snp_cpuid_write_image(set, avic, edition, lent);
    print_written(output, written, lent)
}

// b number leaf has_subleaf subleaf s rows mask
fn print_built<W: Write>(output: &mut W, built: SnpCpuidBuilt) -> io::Result<()> {
    print(output, b'b')?;
    print_refusal(
        output,
        built.number,
        built.leaf,
        built.has_subleaf,
        built.subleaf,
        built.s,
    )?;
    print_number(output, built.row_count)?;
    print_number(output, built.max_extended_state)?;
    print(output, b'\n')
}

// l found EAX EBX ECX EDX origin page entry
fn print_found<W: Write>(output: &mut W, found: SnpCpuidFound) -> io::Result<()> {
    print(output, b'l')?;
    print_number(output, found.found as u64)?;
    print_number(output, found.eax as u64)?;
    print_number(output, found.ebx as u64)?;
    print_number(output, found.ecx as u64)?;
    print_number(output, found.edx as u64)?;
    print_number(output, found.origin as u64)?;
    print_number(output, found.page)?;
    print_number(output, found.entry as u64)?;
    print(output, b'\n')
}

// f number leaf has_subleaf subleaf s found page entry
fn print_first<W: Write>(output: &mut W, first: SnpCpuidFirst) -> io::Result<()> {
    print(output, b'f')?;
    print_refusal(
        output,
        first.number,
        first.leaf,
        first.has_subleaf,
        first.subleaf,
        first.s,
    )?;
    print_number(output, first.found as u64)?;
    print_number(output, first.page)?;
    print_number(output, first.entry as u64)?;
    print(output, b'\n')
}

// w number leaf has_subleaf subleaf s length, and every byte of the lent buffer
fn print_written<W: Write>(
    output: &mut W,
    written: SnpCpuidWritten,
    lent: &[u8],
) -> io::Result<()> {
    print(output, b'w')?;
    print_refusal(
        output,
        written.number,
        written.leaf,
        written.has_subleaf,
        written.subleaf,
        written.s,
    )?;
    print_number(output, written.length)?;
    print(output, b' ')?;
    print_bytes(output, lent)?;
    print(output, b'\n')
}

// What a refusal names.
fn print_refusal<W: Write>(
    output: &mut W,
    number: u32,
    leaf: u32,
    has_subleaf: u32,
    subleaf: u32,
    s: u32,
) -> io::Result<()> {
    print_number(output, number as u64)?;
    print_number(output, leaf as u64)?;
    print_number(output, has_subleaf as u64)?;
    print_number(output, subleaf as u64)?;
    print_number(output, s as u64)
}

// A space and 16 hexadecimal digits, in one write: standard output has no buffer, and `write!` writes each piece by itself.
fn print_number<W: Write>(output: &mut W, x: u64) -> io::Result<()> {
    let mut text = [b' '; 17];
    for k in 0..16 {
        text[16 - k] = DIGITS[(x >> (4 * k)) as usize % 16];
    }
    output.write_all(&text)
}

// Two digits for each byte.
fn print_bytes<W: Write>(output: &mut W, bytes: &[u8]) -> io::Result<()> {
    for byte in bytes {
        print(output, DIGITS[usize::from(*byte / 16)])?;
        print(output, DIGITS[usize::from(*byte % 16)])?;
    }
    Ok(())
}

// One character.
fn print<W: Write>(output: &mut W, text: u8) -> io::Result<()> {
    output.write_all(&[text])
}
