//! Each object once, over what it was made of.

use io_edges::{
    Fetched, FolderFiles, Got, LayerFiles, MemoryFiles, MemorySink, MemorySource, Put, Sink,
    Source, StdSink, StdSource, SureFiles, SureSink, SureSource,
};
use std::alloc::Global;
use std::fs;
use std::io::{self, ErrorKind, Write};
use std::test::Fail;

/// Two files of one name, and another.
fn three_files(alloc: Global) -> Result<Vec<(String, Vec<u8>)>, Fail> {
    let mut files = Vec::new(alloc);
    for (name, text) in [("a", "first"), ("a", "second"), ("b", "")] {
        files.push((
            String::from_str(alloc, name)?,
            Vec::from_slice(alloc, text.as_bytes())?,
        ))?;
    }
    Ok(files)
}

fn are_names(names: &[String], texts: &[&str]) -> bool {
    if names.len() != texts.len() {
        return false;
    }
    for (name, text) in names.iter().zip(texts) {
        if name.as_str() != *text {
            return false;
        }
    }
    true
}

#[test]
fn the_first_file_of_a_name_counts(rt: HostRuntime) -> Result<(), Fail> {
    let alloc = rt.alloc();
    let mut files = SureFiles::new(three_files(alloc)?);
    let mut into = Vec::from_slice(alloc, b"held ".as_slice())?;
    let told = [
        files.fetch("a", &mut into),
        files.fetch("b", &mut into),
        files.fetch("c", &mut into),
    ];
    assert!(rt;
        told == [Fetched::Found, Fetched::Found, Fetched::Absent]
            && into.as_slice() == b"held first".as_slice()
    );
    Ok(())
}

#[test]
fn fetches_of_the_given_numbers_fail(rt: HostRuntime) -> Result<(), Fail> {
    let alloc = rt.alloc();
    let mut files = MemoryFiles::new(three_files(alloc)?, Vec::from_slice(alloc, &[2, 3])?);
    let mut into = Vec::new(alloc);
    let told = [
        files.fetch("a", &mut into),
        files.fetch("a", &mut into),
        files.fetch("c", &mut into),
        files.fetch("c", &mut into),
    ];
    assert!(rt;
        told == [
            Fetched::Found,
            Fetched::Failed,
            Fetched::Failed,
            Fetched::Absent
        ] && into.as_slice() == b"first".as_slice()
            && are_names(files.asked(), ["a", "a", "c", "c"].as_slice())
    );
    Ok(())
}

#[test]
fn a_source_gives_its_bytes_step_by_step(rt: HostRuntime) -> Result<(), Fail> {
    let alloc = rt.alloc();
    let mut source = SureSource::new(Vec::from_slice(alloc, b"abcde".as_slice())?, 3);
    let mut into = [b'-'; 4];
    let first = source.read(&mut into);
    let begun = into.as_slice() == b"abc-".as_slice();
    let told = [first, source.read(&mut into), source.read(&mut into)];
    assert!(rt;
        begun
            && told == [Got::Bytes(3), Got::Bytes(2), Got::End]
            && into.as_slice() == b"dec-".as_slice()
    );
    Ok(())
}

#[test]
fn reads_of_the_given_numbers_fail(rt: HostRuntime) -> Result<(), Fail> {
    let alloc = rt.alloc();
    let bytes = Vec::from_slice(alloc, b"abc".as_slice())?;
    let mut source = MemorySource::new(bytes, 2, Vec::from_slice(alloc, &[2, 4])?);
    let mut into = [b'-'; 4];
    let first = [
        source.read(&mut into),
        source.read(&mut into),
        source.read(&mut into),
    ];
    let held = into.as_slice() == b"cb--".as_slice();
    let last = [source.read(&mut into), source.read(&mut into)];
    assert!(rt;
        held && first == [Got::Bytes(2), Got::Failed, Got::Bytes(1)]
            && last == [Got::Failed, Got::End]
    );
    Ok(())
}

#[test]
fn a_sink_takes_bytes_step_by_step(rt: HostRuntime) -> Result<(), Fail> {
    let mut sink = SureSink::new(rt.alloc(), 2);
    let told = [sink.write(b"abc".as_slice()), sink.write(b"c".as_slice())];
    assert!(rt; told == [Put::Took(2), Put::Took(1)] && sink.taken() == b"abc".as_slice());
    Ok(())
}

#[test]
fn writes_of_the_given_numbers_fail(rt: HostRuntime) -> Result<(), Fail> {
    let alloc = rt.alloc();
    let mut sink = MemorySink::new(alloc, 2, Vec::from_slice(alloc, &[1, 3])?);
    let told = [
        sink.write(b"abc".as_slice()),
        sink.write(b"abc".as_slice()),
        sink.write(b"c".as_slice()),
        sink.write(b"c".as_slice()),
    ];
    assert!(rt;
        told == [Put::Failed, Put::Took(2), Put::Failed, Put::Took(1)]
            && sink.taken() == b"abc".as_slice()
    );
    Ok(())
}

#[test]
fn a_folder_has_the_files_that_lie_there(rt: HostRuntime) -> Result<(), Fail> {
    fs::write(&rt, "io_edges_layer.usda", "#usda 1.0\n")?;
    let mut files = FolderFiles::new(rt.clone()?);
    let mut into = Vec::new(rt.alloc());
    let found = files.fetch("io_edges_layer.usda", &mut into);
    fs::remove_file(&rt, "io_edges_layer.usda")?;
    let held = into.as_slice() == b"#usda 1.0\n".as_slice();
    // a folder is opened, and cannot be read
    let told = [
        found,
        files.fetch("io_edges_layer.usda", &mut into),
        files.fetch(".", &mut into),
    ];
    assert!(rt;
        held && told == [Fetched::Found, Fetched::Absent, Fetched::Failed]
            && into.as_slice() == b"#usda 1.0\n".as_slice()
    );
    Ok(())
}

#[test]
fn a_source_over_a_reader_gives_what_it_reads(rt: HostRuntime) -> Result<(), Fail> {
    let mut source = StdSource::new(b"abc".as_slice());
    let mut into = [b'-'; 2];
    let first = source.read(&mut into);
    let begun = into.as_slice() == b"ab".as_slice();
    let told = [first, source.read(&mut into), source.read(&mut into)];
    assert!(rt;
        begun
            && told == [Got::Bytes(2), Got::Bytes(1), Got::End]
            && into.as_slice() == b"cb".as_slice()
    );
    Ok(())
}

/// A writer that is interrupted at first, then takes two bytes, then nothing, and then is broken.
#[derive(Drop)]
struct Faltering {
    calls: u8,
}

impl Write for Faltering {
    fn write(&mut self, buf: &[u8]) -> io::Result<usize> {
        self.calls = self.calls.saturating_add(1);
        match self.calls {
            1 => Err(ErrorKind::Interrupted.into()),
            2 => Ok(buf.len().min(2)),
            3 => Ok(0),
            _ => Err(ErrorKind::BrokenPipe.into()),
        }
    }

    fn flush(&mut self) -> io::Result<()> {
        Ok(())
    }
}

#[test]
fn a_sink_over_a_writer_tells_how_much_it_took(rt: HostRuntime) -> Result<(), Fail> {
    let mut sink = StdSink::new(Faltering { calls: 0 });
    let told = [
        sink.write(b"abc".as_slice()),
        sink.write(b"c".as_slice()),
        sink.write(b"c".as_slice()),
    ];
    assert!(rt; told == [Put::Took(2), Put::Failed, Put::Failed]);
    Ok(())
}
