ghost use Rattle.std.specs.Prelude.{◌+◌, ◌<◌, ◌≤◌, ◌^◌, length};

use super::*;
use std::alloc::{AllocError, Global};
use std::test::Fail;
use vfs_tree::ByteBuffer;

/// A file's contents in one vector.
#[derive(Drop)]
struct PlainFile {
    bytes: Vec<u8>,
}

impl PlainFile {
    fn write_at(&mut self, at: usize, bytes: &[u8]) -> Result<(), AllocError>
        requires { at + length bytes.now < 2 ^ 32 }
    {
        let end = at + bytes.len();
        if bytes.is_empty() {
            return Ok(());
        }
        if self.bytes.len() < end {
            self.bytes.resize(end, 0)?;
        }
        for (place, byte) in bytes.iter().enumerate() {
            if let Some(old) = self.bytes.get_mut(at + place) {
                *old = *byte;
            }
        }
        Ok(())
    }

    fn cut(&mut self, len: usize) -> Result<(), AllocError> {
        self.bytes.resize(len, 0)
    }
}

/// The bytes of the file from `at` on, at most `most`.
fn read(alloc: Global, file: &MemFile, at: usize, most: usize) -> Result<ByteBuffer, AllocError> {
    let mut buffer = ByteBuffer::new(alloc);
    buffer.reserve(most)?;
    file.read_into(at, most, &mut buffer);
    Ok(buffer)
}

#[test]
fn each_call(rt: HostRuntime) -> Result<(), Fail> {
    let alloc = rt.alloc();
    let mut file = MemFile::new(alloc);
    assert_eq!(rt; file.len(), 0);
    file.reserve_to(alloc, 9)?;
    assert_eq!(rt; file.len(), 0);
    file.write_at(2, b"abc");
    file.write_at(9, b"");
    assert_eq!(rt; file.len(), 5);
    assert_eq!(rt; read(alloc, &file, 0, 9)?.as_slice(), b"\0\0abc".as_slice());
    assert_eq!(rt; read(alloc, &file, 3, 1)?.as_slice(), b"b".as_slice());
    assert_eq!(rt; read(alloc, &file, 5, 1)?.as_slice(), b"".as_slice());
    file.cut(3);
    file.cut(5);
    assert_eq!(rt;
        read(alloc, &file, 0, 9)?.as_slice(),
        b"\0\0a\0\0".as_slice()
    );
    Ok(())
}

#[test]
fn the_last_byte_of_a_file(rt: HostRuntime) -> Result<(), Fail> {
    let alloc = rt.alloc();
    let mut file = MemFile::new(alloc);
    file.reserve_to(alloc, 1048576)?;
    file.write_at(1048575, b"z");
    assert_eq!(rt; file.len(), 1048576);
    assert_eq!(rt;
        read(alloc, &file, 1048573, 9)?.as_slice(),
        b"\0\0z".as_slice()
    );
    Ok(())
}

/// The next of a row of numbers that look mixed.
fn mixed(number: u32) -> u32 {
    number.wrapping_mul(1664525).wrapping_add(1013904223)
}

/// One edit of both forms, by a number.
fn edit(
    alloc: Global,
    number: u32,
    file: &mut MemFile,
    plain: &mut PlainFile,
) -> Result<(), AllocError> {
    let at = (number / 16 % 20000) as usize;
    let count = (number / 4096 % 9000) as usize;
    if number % 3 == 0 {
        file.reserve_to(alloc, at)?;
        file.cut(at);
        plain.cut(at)
    } else {
        let piece = vec![in alloc; (number / 256 % 255 + 1) as u8; count]?;
        file.reserve_to(alloc, 40000)?;
        file.write_at(at, piece.as_slice());
        plain.write_at(at, piece.as_slice())
    }
}

#[test]
fn a_hundred_edits_in_pages_and_in_one_vector(rt: HostRuntime) -> Result<(), Fail> {
    let alloc = rt.alloc();
    let mut file = MemFile::new(alloc);
    let mut plain = PlainFile {
        bytes: Vec::new(alloc),
    };
    let mut number = 7;
    for step in 0..100 {
        number = mixed(number);
        edit(alloc, number, &mut file, &mut plain)?;
        let whole = read(alloc, &file, 0, 40000)?;
        assert_eq!(rt; file.len(), plain.bytes.len(), "{step}");
        assert!(rt; whole.as_slice() == plain.bytes.as_slice(), "{step}");
    }
    Ok(())
}
