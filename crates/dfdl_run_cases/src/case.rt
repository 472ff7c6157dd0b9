// A case: a schema, its data, how they are run, and how the run has to end.
use hex::FromHexError;
use serde_json::Value;
use std::alloc::{AllocError, Global};
use thiserror::Error;

// How a run ends: the exit status, and the texts on standard output and standard error.
#[derive(Debug, PartialEq, Eq, Drop)]
pub(crate) struct Ended {
    pub(crate) status: u64,
    pub(crate) out: String,
    pub(crate) notes: String,
}

// How a schema and its data are run: the words, the sizes of the reads, one after the other and again from the first, and the
// numbers of the reads, writes and builds of patterns that fail.
#[derive(Drop)]
pub(crate) struct Trial {
    pub(crate) words: Vec<String>,
    pub(crate) cuts: Vec<usize>,
    pub(crate) failing_reads: Vec<u64>,
    pub(crate) failing_writes: Vec<u64>,
    pub(crate) failing_builds: Vec<u64>,
}

impl Trial {
    // The data are parsed in pieces of so many bytes, or, with none, whole.
    pub(crate) fn in_pieces(alloc: Global, size: usize) -> Result<Trial, AllocError> {
        let mut words = Vec::new(alloc);
        words.push(String::from_str(alloc, "parse")?)?;
        words.push(String::from_str(alloc, "s.xsd")?)?;
        let mut cuts = Vec::new(alloc);
        if size > 0 {
            cuts.push(size)?;
        }
        Ok(Trial {
            words,
            cuts,
            failing_reads: Vec::new(alloc),
            failing_writes: Vec::new(alloc),
            failing_builds: Vec::new(alloc),
        })
    }

    // Reads how a case is run, if it tells its words.
    fn read(alloc: Global, case: &Value) -> Result<Option<Trial>, CaseFault> {
        let Some(words) = case.get("words").and_then(|value| value.as_array()) else {
            return Ok(None);
        };
        let mut cuts = Vec::new(alloc);
        for cut in numbers_of(alloc, case, "cuts")?.iter() {
            cuts.push(*cut as usize)
                .map_err(|_| CaseFault::OutOfMemory)?;
        }
        Ok(Some(Trial {
            words: texts_of(alloc, words)?,
            cuts,
            failing_reads: numbers_of(alloc, case, "failing_reads")?,
            failing_writes: numbers_of(alloc, case, "failing_writes")?,
            failing_builds: numbers_of(alloc, case, "failing_builds")?,
        }))
    }
}

#[derive(Drop)]
pub(crate) struct Case {
    pub(crate) schema: String,
    pub(crate) data: Vec<u8>,
    pub(crate) expected: Ended,
    // How it is run, where that is told; else it is parsed whole and in pieces.
    pub(crate) told: Option<Trial>,
}

// Why a line is no case.
#[derive(Debug, Drop, Error)]
pub(crate) enum CaseFault {
    #[error("no JSON")]
    NoJson,
    #[error("no {0}")]
    Missing(&'static str),
    #[error("data: {0}")]
    Data(#[from] FromHexError),
    #[error("out of memory")]
    OutOfMemory,
}

impl From<AllocError> for CaseFault {
    fn from(_: AllocError) -> CaseFault {
        CaseFault::OutOfMemory
    }
}

impl Case {
    // Reads an object with the texts `schema`, `data` (hexadecimal), `stdout` and `stderr` and the number `status`, and, where the
    // run is told, the texts `words` and the numbers `cuts`, `failing_reads`, `failing_writes` and `failing_builds`.
    pub(crate) fn read(alloc: Global, line: &[u8]) -> Result<Case, CaseFault> {
        let text = std::str::from_utf8(line).map_err(|_| CaseFault::NoJson)?;
        let object = Value::from_str(alloc, text).map_err(|_| CaseFault::NoJson)?;
        let status = object.get("status").and_then(|value| value.as_u64());
        Ok(Case {
            schema: String::from_str(alloc, text_of(&object, "schema")?)?,
            data: hex::decode(alloc, text_of(&object, "data")?)?,
            expected: Ended {
                status: status.ok_or(CaseFault::Missing("status"))?,
                out: String::from_str(alloc, text_of(&object, "stdout")?)?,
                notes: String::from_str(alloc, text_of(&object, "stderr")?)?,
            },
            told: Trial::read(alloc, &object)?,
        })
    }
}

// The text of this name in a case.
fn text_of<'v>(case: &'v Value, name: &'static str) -> Result<&'v str, CaseFault> {
    match case.get(name) {
        Some(Value::String(text)) => Ok(text.as_str()),
        _ => Err(CaseFault::Missing(name)),
    }
}

// The texts of a list.
fn texts_of(alloc: Global, list: &Vec<Value>) -> Result<Vec<String>, CaseFault> {
    let mut texts = Vec::new(alloc);
    for item in list.iter() {
        let text = item.as_str().ok_or(CaseFault::Missing("text"))?;
        let text = String::from_str(alloc, text)?;
        texts.push(text).map_err(|_| CaseFault::OutOfMemory)?;
    }
    Ok(texts)
}

// The numbers of this name in a case.
fn numbers_of(alloc: Global, case: &Value, name: &'static str) -> Result<Vec<u64>, CaseFault> {
    let list = case.get(name).and_then(|value| value.as_array());
    let mut numbers = Vec::new(alloc);
    for item in list.ok_or(CaseFault::Missing(name))?.iter() {
        let number = item.as_u64().ok_or(CaseFault::Missing(name))?;
        numbers.push(number).map_err(|_| CaseFault::OutOfMemory)?;
    }
    Ok(numbers)
}
