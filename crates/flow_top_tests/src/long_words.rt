// Words without measure: many of them, and long ones.

use flow_base::mem_files::MemFiles;
use flow_base::mem_sink::MemSink;
use flow_monitor::Monitor;
use flow_top::flow_main;
use std::alloc::{AllocError, Global};

// Whether these words, where there is no file at all, are answered so.
fn is_answered(
    alloc: Global,
    words: &[String],
    status: u8,
    text: &[u8],
) -> Result<bool, AllocError> {
    let mut files = MemFiles::new(alloc, Vec::new(alloc), Vec::new(alloc));
    let mut out = MemSink::new(alloc, Vec::new(alloc));
    let monitors: Vec<Box<dyn Monitor>> = Vec::new(alloc);
    let told = flow_main(alloc, words, &mut files, &mut out, monitors);
    Ok(told == status && out.bytes() == text)
}

// A text so many times.
fn repeated(alloc: Global, text: &str, times: u32) -> Result<String, AllocError> {
    let mut all = String::new(alloc);
    for _ in 0..times {
        all.push_str(text)?;
    }
    Ok(all)
}

// Two words, and a third one.
fn with_last(alloc: Global, texts: &[&str], last: String) -> Result<Vec<String>, AllocError> {
    let mut words = Vec::new(alloc);
    for text in texts {
        words.push(text.to_string(alloc)?)?;
    }
    words.push(last)?;
    Ok(words)
}

// Whether these words, with a long one behind them, are answered so.
fn is_answered_with(
    alloc: Global,
    texts: &[&str],
    last: String,
    (status, text): (u8, &[u8]),
) -> Result<bool, AllocError> {
    let words = with_last(alloc, texts, last)?;
    is_answered(alloc, &words, status, text)
}

const USAGE: (u8, &[u8]) = (2, b"usage\n");

const NO_FILE: (u8, &[u8]) = (5, b"read fault\n");

#[test]
fn ten_thousand_words(rt: HostRuntime) -> Result<(), AllocError> {
    let alloc = rt.alloc();
    let mut words = Vec::new(alloc);
    words.push("check".to_string(alloc)?)?;
    for _ in 0..9_999u32 {
        words.push("p".to_string(alloc)?)?;
    }
    assert!(rt; is_answered(alloc, &words, USAGE.0, USAGE.1)?);
    Ok(())
}

// A word of a MiB is a name as any other, and no command.
#[test]
fn a_word_of_a_mebibyte(rt: HostRuntime) -> Result<(), AllocError> {
    let alloc = rt.alloc();
    let long = repeated(alloc, "0123456789abcdef", 65_536)?;
    assert!(rt; is_answered_with(alloc, &["check"], long.as_str().to_string(alloc)?, NO_FILE)?);
    assert!(rt;
        is_answered_with(
            alloc,
            &["run", "p"],
            long.as_str().to_string(alloc)?,
            NO_FILE
        )?
    );
    assert!(rt;
        is_answered_with(
            alloc,
            &["bench", "1"],
            long.as_str().to_string(alloc)?,
            USAGE
        )?
    );
    assert!(rt; is_answered_with(alloc, &[], long, USAGE)?);
    Ok(())
}

// A list of monitors with ten thousand items, of which each is one that isn't handed in.
#[test]
fn a_list_of_ten_thousand(rt: HostRuntime) -> Result<(), AllocError> {
    let alloc = rt.alloc();
    let mut list = repeated(alloc, "live=1,", 9_999)?;
    list.push_str("live=1")?;
    assert!(rt; is_answered_with(alloc, &["run", "p", "w", "--monitor"], list, USAGE)?);
    Ok(())
}
