use crate::FileDisk;
use cl_base::{Choice, Disk, Trouble};
use std::fs;
use std::test::Fail;

#[test]
fn files_in_a_folder_of_the_test(rt: HostRuntime) -> Result<(), Fail> {
    let alloc = rt.alloc();
    let _ = fs::remove_dir_all(&rt, "file_disk_test");
    let Ok(mut disk) = FileDisk::at(rt, alloc, format!(in alloc; "file_disk_test/m0")?) else {
        return Err("no folder".into());
    };
    let mut buf = [0u8; 8];
    assert!(rt; disk.len(7) == Ok(0));
    assert!(rt; disk.read_at(7, 0, &mut buf) == Ok(0));
    assert!(rt; fs::metadata(&rt, "file_disk_test/m0/f7").is_err());

    assert!(rt; disk.write_at(7, 0, &[1, 2, 3, 4, 5]).is_ok());
    assert!(rt; disk.write_at(7, 1, &[8, 9]).is_ok());
    assert!(rt; disk.sync(7).is_ok());
    assert!(rt; disk.cut(7, 4).is_ok());
    assert!(rt; disk.len(7) == Ok(4));
    assert!(rt; disk.read_at(7, 1, &mut buf) == Ok(3));
    assert!(rt; buf.starts_with(&[8, 9, 4]));
    assert!(rt; disk.len(8) == Ok(0));

    // A fuse past its calls refuses all, and a crash changes no file.
    disk.fuse(1);
    assert!(rt; disk.sync(7).is_ok());
    assert!(rt; disk.write_at(7, 0, &[6]) == Err(Trouble::Failed));
    assert!(rt; disk.len(7) == Err(Trouble::Failed));
    assert_eq!(rt; disk.faults(), 2);
    disk.crash(Choice::Drop);
    assert!(rt; disk.read_at(7, 0, &mut buf) == Ok(4));
    assert!(rt; buf.starts_with(&[1, 8, 9, 4]));

    // More files than are kept open.
    for file in 20..40 {
        assert!(rt; disk.write_at(file, 0, &[file as u8]).is_ok());
    }
    assert!(rt; disk.read_at(20, 0, &mut buf) == Ok(1));
    assert!(rt; buf.starts_with(&[20]));

    // Another disk in the same folder has its files, and a file's name makes no folder.
    let Ok(mut again) = FileDisk::at(rt, alloc, format!(in alloc; "file_disk_test/m0/")?) else {
        return Err("no folder".into());
    };
    assert!(rt; again.len(7) == Ok(4));
    assert!(rt; FileDisk::at(rt, alloc, format!(in alloc; "file_disk_test/m0/f7")?).is_err());
    assert!(rt; FileDisk::at(rt, alloc, format!(in alloc; "file_disk_test/m0/f7/m1")?).is_err());
    fs::remove_dir_all(&rt, "file_disk_test")?;
    Ok(())
}
