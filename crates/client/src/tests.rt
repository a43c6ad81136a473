// The edges of books and words, run.

use crate::copy_book;
use std::alloc::Global;
use std::process::Abort;
use std::test::Fail;
use store::{Bytes, Moves, Store, Words};

fn holds<S: Store>(rt: &impl Abort, store: &mut S, size: u32) -> Result<(), Fail> {
    if size == 0 {
        is_no_book(rt, store)
    } else {
        is_book_of(rt, store, size)
    }
}

// What a read gives, with a refusal as its number, in which the values of these tests are written.
fn got<S: Store>(store: &S, w: u32) -> Result<i32, u32> {
    store.read(w).map_err(u32::from)
}

// What a write answers, with a refusal as its number.
fn put<S: Store>(store: &mut S, w: u32, v: i32) -> Result<(), u32> {
    store.write(w, v).map_err(u32::from)
}

fn is_no_book<S: Store>(rt: &impl Abort, store: &mut S) -> Result<(), Fail> {
    assert_eq!(rt; store.size(), 0);
    assert_eq!(rt; got(store, 0), Err(7));
    assert_eq!(rt; put(store, 0, 1), Err(7));
    Ok(())
}

// The first and the last word can be written, and no word past them.
fn is_book_of<S: Store>(rt: &impl Abort, store: &mut S, size: u32) -> Result<(), Fail> {
    assert_eq!(rt; store.size(), size);
    assert_eq!(rt; put(store, 0, -1), Ok(()));
    assert_eq!(rt; put(store, size.saturating_sub(1), i32::MIN), Ok(()));
    assert_eq!(rt; put(store, size, 5), Err(9));
    assert_eq!(rt; got(store, 0), Ok(-1));
    assert_eq!(rt; got(store, 1), Ok(0));
    assert_eq!(rt; got(store, size.saturating_sub(1)), Ok(i32::MIN));
    assert_eq!(rt; got(store, size), Err(9));
    assert_eq!(rt; got(store, u32::MAX), Err(9));
    Ok(())
}

// A book in n words, or no book where its size is to be 0. Words and bytes lie in memory of their own types, so each has a function.
fn words_hold(rt: &impl Abort, heap: Global, n: usize, size: u32) -> Result<(), Fail> {
    let mut words = vec![in heap; 0i32; n]?;
    holds(rt, &mut Words::new(words.as_mut_slice()), size)
}

fn bytes_hold(rt: &impl Abort, heap: Global, n: usize, size: u32) -> Result<(), Fail> {
    let mut bytes = vec![in heap; 0u8; n]?;
    holds(rt, &mut Bytes::new(bytes.as_mut_slice()), size)
}

#[test]
fn words_of_every_length(rt: HostRuntime) -> Result<(), Fail> {
    for n in [0usize, 1, 80, 82, 88, 90, 8080, 8082, 8089] {
        words_hold(&rt, rt.alloc(), n, 0)?;
    }
    words_hold(&rt, rt.alloc(), 81, 81)?;
    words_hold(&rt, rt.alloc(), 89, 89)?;
    words_hold(&rt, rt.alloc(), 8081, 8081)
}

#[test]
fn bytes_of_every_length(rt: HostRuntime) -> Result<(), Fail> {
    for n in [0usize, 81, 320, 323, 325, 328, 32323, 32325, 32356] {
        bytes_hold(&rt, rt.alloc(), n, 0)?;
    }
    bytes_hold(&rt, rt.alloc(), 324, 81)?;
    bytes_hold(&rt, rt.alloc(), 356, 89)?;
    bytes_hold(&rt, rt.alloc(), 32324, 8081)
}

#[test]
fn words_in_bytes(rt: HostRuntime) {
    let mut bytes = [0u8; 324];
    {
        let mut store = Bytes::new(&mut bytes);
        assert_eq!(rt; put(&mut store, 1, i32::MIN), Ok(()));
        assert_eq!(rt; put(&mut store, 2, i32::MAX), Ok(()));
        assert_eq!(rt; put(&mut store, 3, 0x01020304), Ok(()));
        assert_eq!(rt; got(&store, 1), Ok(i32::MIN));
        assert_eq!(rt; got(&store, 2), Ok(i32::MAX));
        assert_eq!(rt; got(&store, 3), Ok(0x01020304));
    }
    assert!(rt; bytes[4..8] == [128, 0, 0, 0]);
    assert!(rt; bytes[8..12] == [127, 255, 255, 255]);
    assert!(rt; bytes[12..16] == [1, 2, 3, 4]);
}

#[test]
fn moves_wrap(rt: HostRuntime) {
    let mut words = [i32::MAX; 81];
    let mut layer = Moves::over(Words::new(&mut words));
    assert_eq!(rt; put(&mut layer, 1, i32::MIN), Ok(()));
    assert_eq!(rt; layer.move_of(1), 1);
    assert_eq!(rt; got(&layer, 1), Ok(i32::MIN));
    assert_eq!(rt; got(layer.below(), 1), Ok(i32::MAX));
}

#[test]
fn moves_over_moves(rt: HostRuntime) {
    let mut words = [100i32; 81];
    let mut lower = Moves::over(Words::new(&mut words));
    assert_eq!(rt; put(&mut lower, 64, 130), Ok(()));
    let mut upper = Moves::over(lower);
    assert_eq!(rt; put(&mut upper, 64, 7), Ok(()));
    assert_eq!(rt; put(&mut upper, 65, 8), Ok(()));
    assert_eq!(rt; put(&mut upper, 81, 9), Err(9));
    assert_eq!(rt; upper.move_of(64), -123);
    let lower = upper.into_below();
    assert_eq!(rt; got(&lower, 64), Ok(130));
    assert_eq!(rt; got(&lower, 65), Ok(8));
    assert_eq!(rt; got(lower.below(), 64), Ok(100));
}

#[test]
fn moves_over_no_book(rt: HostRuntime) -> Result<(), Fail> {
    let mut words = [3i32; 82];
    let mut layer = Moves::over(Words::new(&mut words));
    is_no_book(&rt, &mut layer)?;
    assert_eq!(rt; put(&mut layer, 1, 5), Err(7));
    assert_eq!(rt; layer.move_of(1), 0);
    Ok(())
}

#[test]
fn copies(rt: HostRuntime) {
    let mut words = [6i32; 81];
    let mut bytes = [0u8; 324];
    let from = Words::new(&mut words);
    let mut to = Bytes::new(&mut bytes);
    assert!(rt; copy_book(&from, &mut to).is_ok());
    assert_eq!(rt; got(&to, 80), Ok(6));
}

#[test]
fn sizes_differ(rt: HostRuntime) {
    let mut words = [6i32; 81];
    let mut longer = [0i32; 89];
    let from = Words::new(&mut words);
    let mut to = Words::new(&mut longer);
    assert!(rt; copy_book(&from, &mut to).is_err());
    assert_eq!(rt; got(&to, 0), Ok(0));
}
