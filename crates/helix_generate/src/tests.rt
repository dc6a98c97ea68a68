use crate::generate;
use helix_base::{Alphabet, Text};
use helix_command::Job;
use helix_lines::Ending;
use helix_output::Format;
use helix_outside::{Calls, Disk, Files, MemoryDisk};
use std::alloc::Global;
use std::test::Fail;

/// A disk with a profile of one number from 1 to 3, or null.
fn disk(alloc: Global) -> Result<MemoryDisk, Fail> {
    let mut files = Files::new(alloc);
    files.put(
        "p",
        b"{\"fields\":[{\"name\":\"n\",\"type\":\"integer\"}],\"constraints\":[{\"field\":\"n\",\"inSet\":[3,1,2]}]}",
    )?;
    Ok(MemoryDisk::open(files, Calls::new(alloc)))
}

/// The job to write so many rows of it.
fn job(alloc: Global, limit: u64, violate: Option<u64>) -> Result<Job, Fail> {
    Ok(Job {
        profile: Text::of(alloc, "p")?,
        output: Text::of(alloc, "o")?,
        format: Format::Csv,
        limit,
        resume: None,
        token: None,
        violate,
        violate_rule: None,
        alphabet: Alphabet::Basic,
        replace: false,
        violate_all: false,
        boundary: false,
        explain: false,
    })
}

/// How it ends. A proof of a test knows nothing more of it.
fn ends<D: Disk>(alloc: Global, job: &Job, disk: &mut D) -> Option<u64> {
    if job.limit == 0 || job.violate.is_some() {
        return None;
    }
    match generate(alloc, job, disk) {
        Ending::Done(rows) => Some(rows),
        Ending::Cut { rows, .. } => Some(rows),
        _ => None,
    }
}

fn held<'a>(disk: &'a MemoryDisk, name: &str) -> Option<&'a str> {
    disk.file(name).and_then(|bytes| str::from_utf8(bytes).ok())
}

#[test]
fn rows_of_a_profile_are_written(rt: HostRuntime) -> Result<(), Fail> {
    let cases = [(2, 2, "\"n\"\n1\n2\n"), (9, 4, "\"n\"\n1\n2\n3\n\n")];
    for (limit, rows, text) in cases {
        let mut disk = disk(rt.alloc())?;
        let job = job(rt.alloc(), limit, None)?;
        assert_eq!(rt; ends(rt.alloc(), &job, &mut disk), Some(rows), "{limit}");
        assert_eq!(rt; held(&disk, "o"), Some(text), "{limit}");
    }
    Ok(())
}
