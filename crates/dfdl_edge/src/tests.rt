use super::*;
use std::env::{Env, FillError};
use std::io::{ErrorKind, Read, Write};
use std::test::Fail;
use std::{fs, io, process};

// Reads a source of these bytes to its end, with at most 5 bytes allowed.
fn read_five(
    rt: &HostRuntime,
    bytes: &[u8],
    cuts: &[usize],
    failing: &[u64],
) -> Result<Result<Vec<u8>, SourceFault>, Fail> {
    let mut source = MemorySource::new(
        bytes.to_vec(rt.alloc())?,
        cuts.to_vec(rt.alloc())?,
        failing.to_vec(rt.alloc())?,
    );
    Ok(read_to_limit(rt.alloc(), &mut source, 5))
}

#[test]
fn pieces_of_any_cut_give_the_whole(rt: HostRuntime) -> Result<(), Fail> {
    for cuts in [&[][..], &[1], &[2], &[2, 1], &[0, 3]] {
        let bytes = read_five(&rt, b"abcde", cuts, &[])??;
        assert_eq!(rt; bytes.as_slice(), b"abcde".as_slice(), "cut by {cuts:?}");
    }
    assert_eq!(rt; read_five(&rt, b"", &[1], &[])??.len(), 0);
    Ok(())
}

#[test]
fn a_byte_past_the_limit_is_too_large(rt: HostRuntime) -> Result<(), Fail> {
    for cuts in [&[][..], &[1], &[4]] {
        let answer = read_five(&rt, b"abcdef", cuts, &[])?;
        assert_eq!(rt;
            answer.err(),
            Some(SourceFault::TooLarge),
            "cut by {cuts:?}"
        );
    }
    Ok(())
}

#[test]
fn the_third_read_fails_and_leaves_the_rest(rt: HostRuntime) -> Result<(), Fail> {
    let mut source = MemorySource::new(
        b"abcd".to_vec(rt.alloc())?,
        [1].to_vec(rt.alloc())?,
        [3].to_vec(rt.alloc())?,
    );
    let answer = read_to_limit(rt.alloc(), &mut source, 9);
    assert_eq!(rt; answer.err(), Some(SourceFault::Failed));
    assert_eq!(rt; source.left(), b"cd".as_slice());
    assert_eq!(rt; source.faults(), 1);
    let rest = read_to_limit(rt.alloc(), &mut source, 9)?;
    assert_eq!(rt; rest.as_slice(), b"cd".as_slice());
    Ok(())
}

#[test]
fn the_second_write_fails_and_takes_nothing(rt: HostRuntime) -> Result<(), Fail> {
    let mut sink = MemorySink::new(rt.alloc(), [2].to_vec(rt.alloc())?);
    sink.write(b"ab")?;
    assert_eq!(rt; sink.write(b"cd"), Err(Failed));
    assert_eq!(rt; sink.taken(), b"ab".as_slice());
    sink.write(b"ef")?;
    assert_eq!(rt; sink.taken(), b"abef".as_slice());
    assert_eq!(rt; sink.faults(), 1);
    assert_eq!(rt; sink.is_short(), false);
    Ok(())
}

// A file of three bytes; load number 4 is to fail.
fn one_file(rt: &HostRuntime) -> Result<MemoryFiles, Fail> {
    let file = MemoryFile {
        name: String::from_str(rt.alloc(), "a.xsd")?,
        bytes: b"abc".to_vec(rt.alloc())?,
    };
    let mut files = Vec::new(rt.alloc());
    files.push(file)?;
    Ok(MemoryFiles::new(files, [4].to_vec(rt.alloc())?))
}

#[test]
fn files_in_memory_are_loaded_by_name(rt: HostRuntime) -> Result<(), Fail> {
    let mut files = one_file(&rt)?;
    let bytes = files.load(rt.alloc(), "a.xsd", 3)?;
    assert_eq!(rt; bytes.as_slice(), b"abc".as_slice());
    let too_large = files.load(rt.alloc(), "a.xsd", 2).err();
    assert_eq!(rt; too_large, Some(LoadFault::TooLarge { size: 3 }));
    assert_eq!(rt; files.last_failed().is_none(), true);
    assert_eq!(rt;
        files.load(rt.alloc(), "b.xsd", 3).err(),
        Some(LoadFault::Failed)
    );
    assert_eq!(rt; files.last_failed().unwrap_or(""), "b.xsd");
    assert_eq!(rt;
        files.load(rt.alloc(), "a.xsd", 3).err(),
        Some(LoadFault::Failed)
    );
    assert_eq!(rt; files.last_failed().unwrap_or(""), "a.xsd");
    assert_eq!(rt; files.faults(), 2);
    assert_eq!(rt; files.loads(), 4);
    Ok(())
}

#[test]
fn patterns_are_built_or_refused(rt: HostRuntime) -> Result<(), Fail> {
    let mut patterns = MemoryPatterns::new([3].to_vec(rt.alloc())?);
    let digits = patterns.build(rt.alloc(), "[0-9]+")?;
    assert_eq!(rt; digits.matcher(rt.alloc())?.is_match("a7"), true);
    assert_eq!(rt; patterns.last_refused().is_none(), true);
    assert_eq!(rt;
        patterns.build(rt.alloc(), "(").err(),
        Some(PatternRefusal::Refused)
    );
    assert_eq!(rt; patterns.last_refused().unwrap_or(""), "(");
    assert_eq!(rt;
        patterns.build(rt.alloc(), "b").err(),
        Some(PatternRefusal::Refused)
    );
    assert_eq!(rt; patterns.last_refused().unwrap_or(""), "b");
    assert_eq!(rt; patterns.faults(), 2);
    Ok(())
}

// Gives "x" at every second read, three times in all; the others are interrupted.
#[derive(Drop)]
struct Hesitating {
    reads: u32,
}

impl Read for Hesitating {
    fn read(&mut self, buf: &mut [u8]) -> io::Result<usize> {
        self.reads = self.reads.saturating_add(1);
        if self.reads % 2 == 1 {
            return Err(io::Error::from(ErrorKind::Interrupted));
        }
        if self.reads > 6 || buf.is_empty() {
            return Ok(0);
        }
        buf[0] = b'x';
        Ok(1)
    }
}

#[test]
fn readers_of_the_system_are_sources(rt: HostRuntime) -> Result<(), Fail> {
    let bytes = read_to_limit(rt.alloc(), &mut StdSource::new(b"abc".as_slice()), 3)?;
    assert_eq!(rt; bytes.as_slice(), b"abc".as_slice());
    let bytes = read_to_limit(rt.alloc(), &mut StdSource::new(Hesitating { reads: 0 }), 3)?;
    assert_eq!(rt; bytes.as_slice(), b"xxx".as_slice());
    Ok(())
}

// Gives one byte and then fails, or fails at once.
#[derive(Drop)]
struct FailingReader {
    left: usize,
}

impl Read for FailingReader {
    fn read(&mut self, buf: &mut [u8]) -> io::Result<usize> {
        if self.left == 0 || buf.is_empty() {
            return Err(io::Error::from(ErrorKind::BrokenPipe));
        }
        self.left -= 1;
        buf[0] = b'x';
        Ok(1)
    }
}

#[test]
fn a_failed_read_is_no_end(rt: HostRuntime) -> Result<(), Fail> {
    for left in [0, 1, 2] {
        let mut source = StdSource::new(FailingReader { left });
        let answer = read_to_limit(rt.alloc(), &mut source, 9);
        assert_eq!(rt;
            answer.err(),
            Some(SourceFault::Failed),
            "after {left} bytes"
        );
    }
    Ok(())
}

// Takes one byte at a time, and fails where it has taken all that it may.
#[derive(Drop)]
struct FailingWriter {
    left: usize,
}

impl Write for FailingWriter {
    fn write(&mut self, buf: &[u8]) -> io::Result<usize> {
        if self.left == 0 {
            return Err(io::Error::from(ErrorKind::BrokenPipe));
        }
        self.left -= 1;
        Ok(buf.len().min(1))
    }

    fn flush(&mut self) -> io::Result<()> {
        Ok(())
    }
}

#[test]
fn a_failed_write_is_not_done(rt: HostRuntime) -> Result<(), Fail> {
    for (left, answer) in [(0, Err(Failed)), (2, Err(Failed)), (3, Ok(()))] {
        let mut sink = StdSink::new(FailingWriter { left });
        assert_eq!(rt; sink.write(b"abc"), answer, "after {left} bytes");
    }
    Ok(())
}

#[test]
fn a_folder_is_no_file(rt: HostRuntime) -> Result<(), Fail> {
    let mut files = DirFiles::new(&rt);
    let answer = files.load(rt.alloc(), ".", 1 << 20);
    assert_eq!(rt; answer.err(), Some(LoadFault::Failed));
    Ok(())
}

#[test]
fn a_text_that_is_no_pattern_is_refused(rt: HostRuntime) -> Result<(), Fail> {
    let mut patterns = RegexPatterns::new();
    let answer = patterns.build(rt.alloc(), "a{2");
    assert_eq!(rt; answer.err(), Some(PatternRefusal::Refused));
    let pattern = patterns.build(rt.alloc(), "a{2}")?;
    assert_eq!(rt; pattern.matcher(rt.alloc())?.is_match("baab"), true);
    Ok(())
}

// Takes two bytes at a time, and nothing past the fifth.
#[derive(Drop)]
struct Narrow {
    taken: Vec<u8>,
}

impl Write for Narrow {
    fn write(&mut self, buf: &[u8]) -> io::Result<usize> {
        let room = 5usize.saturating_sub(self.taken.len());
        let count = buf.len().min(room).min(2);
        self.taken.extend_from_slice(&buf[..count])?;
        Ok(count)
    }

    fn flush(&mut self) -> io::Result<()> {
        Ok(())
    }
}

#[test]
fn writers_of_the_system_are_sinks(rt: HostRuntime) -> Result<(), Fail> {
    let mut narrow = Narrow {
        taken: Vec::new(rt.alloc()),
    };
    let mut sink = StdSink::new(&mut narrow);
    sink.write(b"abc")?;
    assert_eq!(rt; sink.write(b"def"), Err(Failed));
    drop(sink);
    assert_eq!(rt; narrow.taken.as_slice(), b"abcde".as_slice());
    Ok(())
}

#[test]
fn files_of_the_system_are_loaded_by_name(rt: HostRuntime) -> Result<(), Fail> {
    let name = format!(in rt.alloc(); "dfdl_edge_{}", process::id(rt.process()))?;
    fs::write(&rt, name.as_str(), b"abc")?;
    let mut files = DirFiles::new(&rt);
    let whole = files.load(rt.alloc(), name.as_str(), 3);
    let past = files.load(rt.alloc(), name.as_str(), 2);
    fs::remove_file(&rt, name.as_str())?;
    let missing = files.load(rt.alloc(), name.as_str(), 3);
    assert_eq!(rt; whole?.as_slice(), b"abc".as_slice());
    assert_eq!(rt; past.err(), Some(LoadFault::TooLarge { size: 3 }));
    assert_eq!(rt; missing.err(), Some(LoadFault::Failed));
    Ok(())
}

// A program's name and its words, as bytes.
#[derive(Drop)]
struct Given<'a> {
    words: &'a [&'a [u8]],
}

impl<'a> Env for Given<'a> {
    fn arg(&self, i: usize, buf: &mut [u8]) -> Result<usize, FillError> {
        let Some(word) = self.words.get(i) else {
            return Err(FillError::NotPresent);
        };
        if word.len() > buf.len() {
            return Err(FillError::TooLong);
        }
        buf[..word.len()].copy_from_slice(*word);
        Ok(word.len())
    }

    fn var(&self, _name: &str, _buf: &mut [u8]) -> Result<usize, FillError> {
        Err(FillError::NotPresent)
    }

    fn var_at(&self, _i: usize, _buf: &mut [u8]) -> Result<usize, FillError> {
        Err(FillError::NotPresent)
    }
}

#[test]
fn words_of_a_program(rt: HostRuntime) -> Result<(), Fail> {
    let long = [b'x'; 700];
    let given = Given {
        words: &[b"dfdl", b"parse", b"\xff.xsd", b"", "é".as_bytes(), &long],
    };
    let words = words_of(rt.alloc(), &given)?;
    assert_eq!(rt; words.len(), 5);
    let mut rest = words.iter();
    for expected in ["parse", "", "", "é"] {
        let word = rest.next().ok_or("a word is missing")?;
        assert_eq!(rt; word.as_str(), expected);
    }
    let last = rest.next().ok_or("the last word is missing")?;
    assert_eq!(rt; last.len(), 700);
    Ok(())
}
