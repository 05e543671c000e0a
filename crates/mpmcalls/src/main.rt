// Runs the records of standard input against DISK.IMG, prints a line for each call, and writes DISK.OUT.
#![tactic(auto)]

ghost use Rattle.io.specs.Counts.{IsPrefixLen};

use rules::size::LIST_SIZE;
use script::line::Line;
use script::record::{CALL_SIZE, START_SIZE};
use script::{caller, line, record};
use std::fs::File;
use std::io::Read;
use std::{fs, io};

// The longest image that is taken.
const LONGEST_IMAGE: usize = 65536;

// The vector beside an image of the first kind of drive.
const VECTOR_SIZE: usize = 32;

// Says in one line on standard error what failed, and why. Where that fails too, nothing is left to say it to.
fn tell(rt: &HostRuntime, what: &str, error: io::Error) {
    let _ = try_to_tell(rt, what, error);
}

// The reason is the system's, without its number.
fn try_to_tell(rt: &HostRuntime, what: &str, error: io::Error) -> io::Result<()> {
    let text = format!(in rt.alloc(); "{error}")?;
    match text.split_once(" (os error ") {
        Some((reason, _)) => eprintln!(rt; "{what}: {reason}"),
        None => eprintln!(rt; "{what}: {text}"),
    }
}

// Writes a line to standard output.
fn print(rt: &HostRuntime, line: Line) -> io::Result<()> {
    rt.write_all(line.as_bytes())
}

// Reads until the buffer is full, the input ends or a read fails, and answers how many bytes it put at the start.
fn read_full<R: Read>(input: &mut R, buf: &mut [u8]) -> usize
    ensures { IsPrefixLen result buf.new }
{
    let mut done = 0;
    while done < buf.len() {
        match input.read(&mut buf[done..]) {
            Ok(0) => break,
            Ok(n) => done += n,
            Err(_) => break,
        }
    }
    done
}

// Whether the input has ended: one byte more is asked for, and a read that fails is no end.
fn is_at_end<R: Read>(input: &mut R) -> bool {
    let mut next = [0u8; 1];
    matches!(input.read(&mut next), Ok(0))
}

// Reads DISK.IMG and answers how many bytes it has. One that cannot be opened, or read to its end, is taken as empty.
fn read_image(rt: &HostRuntime, image: &mut [u8]) -> usize
    ensures { IsPrefixLen result image.new }
{
    let Ok(mut file) = File::open(rt, "DISK.IMG") else {
        return 0;
    };
    let n = read_full(&mut file, image);
    if n < image.len() && !is_at_end(&mut file) {
        return 0;
    }
    n
}

// Writes DISK.OUT. Where that fails it says so on standard error.
fn write_image(rt: &HostRuntime, image: &[u8]) {
    if let Err(error) = fs::write(rt, "DISK.OUT", image) {
        tell(rt, "DISK.OUT", error);
    }
}

// What stands next in the input.
enum Next {
    Call([u8; CALL_SIZE]),
    // A record that is cut or badly marked.
    Bad,
    End,
}

// Reads the next record. A read that fails is no end of the input: it is told, and the record counts as cut.
fn read_next(rt: &HostRuntime) -> Next {
    let mut input = [0u8; CALL_SIZE];
    match rt.stdin().read(&mut input) {
        Ok(0) => Next::End,
        Ok(n) => {
            let n = n + read_full(&mut rt.stdin(), &mut input[n..]);
            if record::is_call(&input[..n]) {
                Next::Call(input)
            } else {
                Next::Bad
            }
        }
        Err(error) => {
            tell(rt, "standard input", error);
            Next::Bad
        }
    }
}

// What the calls work on: the list, the image, and the vector beside it.
#[derive(Drop)]
struct Drive<'a> {
    list: [u8; LIST_SIZE],
    image: &'a mut [u8],
    vector: [u8; VECTOR_SIZE],
}

impl<'a> Drive<'a> {
    // Reads the start record, starts the list and builds the vector of the image. None where the record is cut or
    // badly marked, or Start refuses. An image that is unsound has no vector, and gets no further than that in any
    // call.
    fn start(rt: &HostRuntime, image: &'a mut [u8]) -> Option<Self> {
        let mut input = [0u8; START_SIZE];
        let n = read_full(&mut rt.stdin(), &mut input);
        if !record::is_start(&input[..n]) {
            return None;
        }
        let mut list = [0u8; LIST_SIZE];
        if caller::start_by(&input, &mut list) != 0 {
            return None;
        }
        let mut vector = [0u8; VECTOR_SIZE];
        caller::vector_by(&input, image, &mut vector);
        Some(Drive {
            list,
            image,
            vector,
        })
    }

    // Makes the calls of the input and prints a line for each. Nothing says that the input ends, so the loop counts its
    // turns, to a number that no run uses up.
    fn run(&mut self, rt: &HostRuntime) -> io::Result<()> {
        for calls in 0..u64::MAX {
            match read_next(rt) {
                Next::Call(input) => {
                    let answer = caller::call_by(
                        &input,
                        &mut self.list,
                        self.image,
                        &mut self.vector,
                    );
                    print(rt, line::call_line(calls, &input, answer))?;
                }
                Next::Bad => return print(rt, line::bad_call_line(calls)),
                Next::End => {
                    write_image(rt, self.image);
                    return print(rt, line::end_line(calls));
                }
            }
        }
        Ok(())
    }
}

// Prints the lines of a run; an error is standard output's, after which nothing more is done.
fn run(rt: &HostRuntime, image: &mut [u8]) -> io::Result<()> {
    print(rt, line::header_line())?;
    match Drive::start(rt, image) {
        Some(mut drive) => drive.run(rt),
        None => print(rt, line::bad_start_line()),
    }
}

// One byte more than the longest image is asked for, to see a longer one.
fn main(rt: HostRuntime) {
    let mut image = [0u8; LONGEST_IMAGE + 1];
    let n = read_image(&rt, &mut image);
    let printed = if n > LONGEST_IMAGE {
        print(&rt, line::long_image_line())
    } else {
        run(&rt, &mut image[..n])
    };
    if let Err(error) = printed {
        tell(&rt, "standard output", error);
    }
}
