ghost use Rattle.std.specs.Prelude.{◌≤◌, IfOk};

use bp_base::{Failed, Sink, Source};
use bp_outside::*;
use std::alloc::Global;
use std::env::FillError;
use std::fs;
use std::io::{self, ErrorKind, Read, Write};
use std::rt::Env;
use std::test::Fail;

// A stream whose calls answer in turn: as many bytes, or an error.
#[derive(Drop)]
struct Turns {
    answers: Vec<Option<usize>>,
    at: usize,
}

impl Turns {
    fn new(alloc: Global, answers: &[Option<usize>]) -> Result<Turns, Fail> {
        let answers = Vec::from_slice(alloc, answers)?;
        Ok(Turns { answers, at: 0 })
    }

    fn next(&mut self, most: usize) -> io::Result<usize>
        ensures { IfOk result (λ n. n ≤ most) }
    {
        let answer = self.answers.get(self.at).copied().flatten();
        self.at = self.at.saturating_add(1);
        match answer {
            Some(count) => Ok(count.min(most)),
            None => Err(io::Error::from(ErrorKind::Other)),
        }
    }
}

impl Read for Turns {
    fn read(&mut self, buf: &mut [u8]) -> io::Result<usize> {
        self.next(buf.len())
    }
}

impl Write for Turns {
    fn write(&mut self, buf: &[u8]) -> io::Result<usize> {
        self.next(buf.len())
    }

    fn flush(&mut self) -> io::Result<()> {
        Ok(())
    }
}

#[test]
fn input_counts_errors(rt: HostRuntime) -> Result<(), Fail> {
    let mut text = Input::new(b"abc".as_slice());
    let mut buffer = [b'.'; 2];
    assert_eq!(rt; text.read(&mut buffer), Ok(2));
    assert!(rt; buffer.as_slice() == b"ab".as_slice());
    assert_eq!(rt; text.read(&mut buffer), Ok(1));
    assert_eq!(rt; text.read(&mut buffer), Ok(0));
    assert_eq!(rt; text.faults, 0);
    let turns = Turns::new(rt.alloc(), &[Some(1), None, Some(9), None, Some(0)])?;
    let mut input = Input::new(turns);
    for (wanted, faults) in [
        (Ok(1), 0),
        (Err(Failed), 1),
        (Ok(2), 1),
        (Err(Failed), 2),
        (Ok(0), 2),
    ] {
        assert_eq!(rt; input.read(&mut buffer), wanted);
        assert_eq!(rt; input.faults, faults);
    }
    Ok(())
}

#[test]
fn output_counts_errors(rt: HostRuntime) -> Result<(), Fail> {
    let mut bytes = Vec::new(rt.alloc());
    let mut kept = Output::new(&mut bytes);
    assert_eq!(rt; kept.write(b"ab"), Ok(2));
    assert_eq!(rt; kept.write(b"c"), Ok(1));
    drop(kept);
    assert!(rt; bytes.as_slice() == b"abc".as_slice());
    let turns = Turns::new(rt.alloc(), &[Some(1), None, Some(9), Some(0), Some(2)])?;
    let mut output = Output::new(turns);
    for (wanted, faults) in [
        (Ok(1), 0),
        (Err(Failed), 1),
        (Ok(3), 1),
        (Err(Failed), 2),
        (Ok(2), 2),
    ] {
        assert_eq!(rt; output.write(b"abc"), wanted);
        assert_eq!(rt; output.faults, faults);
    }
    assert_eq!(rt; Output::new(io::writer(&rt)).write(b"\n"), Ok(1));
    assert_eq!(rt; Output::new(rt.stderr()).write(b"\n"), Ok(1));
    Ok(())
}

#[test]
fn files(rt: HostRuntime) -> Result<(), Fail> {
    let path = String::from_str(rt.alloc(), "bytes")?;
    let mut source = FileSource::at(&rt, path.clone()?);
    let mut buffer = [b'.'; 3];
    assert_eq!(rt; source.read(&mut buffer), Err(Failed));
    assert_eq!(rt; source.read(&mut buffer), Err(Failed));
    assert_eq!(rt; source.faults, 2);
    let mut sink = FileSink::at(&rt, path.clone()?);
    assert!(rt; !fs::exists(&rt, "bytes")?);
    assert_eq!(rt; sink.write(b"abc"), Ok(3));
    assert_eq!(rt; sink.write(b"de"), Ok(2));
    assert_eq!(rt; sink.faults, 0);
    assert_eq!(rt; source.read(&mut buffer), Ok(3));
    assert!(rt; buffer.as_slice() == b"abc".as_slice());
    assert_eq!(rt; source.read(&mut buffer), Ok(2));
    assert_eq!(rt; source.read(&mut buffer), Ok(0));
    assert_eq!(rt; source.faults, 2);
    let mut again = FileSink::at(&rt, path);
    assert_eq!(rt; again.write(b"f"), Ok(1));
    assert!(rt; fs::read_to_string(&rt, "bytes")?.as_str() == "f");
    let mut nowhere = FileSink::at(&rt, String::from_str(rt.alloc(), "no/such")?);
    assert_eq!(rt; nowhere.write(b"f"), Err(Failed));
    assert_eq!(rt; nowhere.faults, 1);
    Ok(())
}

// A command line of three words.
#[derive(Drop)]
struct Line;

impl Env for Line {
    fn arg(&self, i: usize, buf: &mut [u8]) -> Result<usize, FillError> {
        let word: &[u8] = match i {
            0 => b"boxpleat",
            1 => b"made",
            2 => b"4",
            _ => return Err(FillError::NotPresent),
        };
        if word.len() > buf.len() {
            return Err(FillError::TooLong);
        }
        buf[..word.len()].copy_from_slice(word);
        Ok(word.len())
    }

    fn var(&self, _name: &str, _buf: &mut [u8]) -> Result<usize, FillError> {
        Err(FillError::NotPresent)
    }

    fn var_at(&self, _i: usize, _buf: &mut [u8]) -> Result<usize, FillError> {
        Err(FillError::NotPresent)
    }
}

#[test]
fn words_after_the_name(rt: HostRuntime) -> Result<(), Fail> {
    let words = match words(&(Line, rt.alloc())) {
        Ok(words) => words,
        // nothing else but memory can be wanting here
        Err(error) => {
            assert!(rt; error.kind() == ErrorKind::OutOfMemory);
            return Ok(());
        }
    };
    assert_eq!(rt; words.len(), 2);
    assert!(rt; words[0].as_str() == "made");
    assert!(rt; words[1].as_str() == "4");
    Ok(())
}
