use crate::real_console::RealConsole;
use crate::real_disk::RealDisk;
use helix_outside::{Console, Disk, Failed};
use std::test::Fail;
use std::{env, fs, process};

#[test]
fn writes_and_reads_a_real_file(rt: HostRuntime) -> Result<(), Fail> {
    let folder = env::temp_dir(&rt)?;
    let id = process::id(rt.process());
    let path = format!(in rt.alloc();
        "{}/helix-real-disk-{id}",
        folder.as_path().to_str().ok_or("no text")?
    )?;
    let name = path.as_str();
    let mut disk = RealDisk::open(&rt);
    assert_eq!(rt; disk.begin_read(name), Err(Failed));
    assert_eq!(rt; disk.begin_write(name, false), Ok(()));
    assert_eq!(rt; disk.write(b"a\nb"), Ok(3));
    assert_eq!(rt; disk.finish(), Ok(()));
    assert_eq!(rt; disk.begin_write(name, false), Err(Failed));
    let mut buffer = [0; 8];
    assert_eq!(rt; disk.begin_read(name), Ok(()));
    assert_eq!(rt; disk.read(&mut buffer), Ok(3));
    assert_eq!(rt; &buffer[..3], b"a\nb".as_slice());
    assert_eq!(rt; disk.read(&mut buffer), Ok(0));
    assert_eq!(rt; disk.begin_write(name, true), Ok(()));
    assert_eq!(rt; disk.finish(), Ok(()));
    assert_eq!(rt; fs::read(&rt, name)?.len(), 0);
    assert_eq!(rt; disk.faults(), (1, 1));
    fs::remove_file(&rt, name)?;
    Ok(())
}

#[test]
fn shows_a_line(rt: HostRuntime) {
    let mut console = RealConsole::open(&rt);
    assert_eq!(rt; console.line(b"a line"), Ok(()));
}
