//! Tests with readers and writers that fail.

use crate::streams::{Fault, Sink, Source};
use bforest_run::{Kind, run_text};

const LINES: &[u8] = b"insert 0 up 5 50\ninsert 0 up 5 51\nget 0 up 5\niter 0\n";

const ANSWERS: &[u8] = b"new\nold:50\n51\n[5:51]\n";

#[test]
fn nothing_is_written_where_a_read_fails(rt: HostRuntime) {
    for fault in [Fault::Fails, Fault::IsInterrupted] {
        for at in [1, 2, 7] {
            let mut input = Source::with_fault(LINES, fault, at);
            let mut output = Sink::new();
            let status = run_text(rt.alloc(), Kind::Map, u32::MAX, &mut input, &mut output);
            assert_eq!(rt; status, 4);
            assert_eq!(rt; output.calls, 0);
        }
    }
}

#[test]
fn a_reader_that_is_always_interrupted_is_asked_so_often(rt: HostRuntime) {
    let mut input = Source::with_fault(LINES, Fault::IsInterrupted, 1);
    let mut output = Sink::new();
    let status = run_text(rt.alloc(), Kind::Map, u32::MAX, &mut input, &mut output);
    assert_eq!(rt; status, 4);
    assert_eq!(rt; input.calls, 1048576);
}

#[test]
fn each_read_asks_for_4096_bytes_at_least(rt: HostRuntime) {
    // Spaces alone, in pieces of 3 bytes and of any length.
    let blank = [b' '; 9000];
    for most in [3, usize::MAX] {
        let mut input = Source::of(&blank);
        input.most = most;
        let mut output = Sink::new();
        let status = run_text(rt.alloc(), Kind::Map, u32::MAX, &mut input, &mut output);
        assert_eq!(rt; (status, output.calls), (0, 0));
        assert!(rt; input.least >= 4096);
    }
}

#[test]
fn a_reader_that_ends_early_is_answered(rt: HostRuntime) {
    let mut input = Source::with_fault(LINES, Fault::TakesNothing, 7);
    let mut output = Sink::new();
    let status = run_text(rt.alloc(), Kind::Map, u32::MAX, &mut input, &mut output);
    assert_eq!(rt; status, 2);
    assert_eq!(rt; output.written(), b"new\nline 2: bad\n".as_slice());
}

#[test]
fn nothing_follows_a_write_that_failed(rt: HostRuntime) {
    for at in 1..12 {
        let mut input = Source::of(LINES);
        let mut output = Sink::with_fault(Fault::Fails, at);
        let status = run_text(rt.alloc(), Kind::Map, u32::MAX, &mut input, &mut output);
        assert_eq!(rt; status, 4);
        assert_eq!(rt; output.calls, at);
        assert!(rt; ANSWERS.starts_with(output.written()));
    }
}

#[test]
fn a_write_that_takes_no_byte_has_failed(rt: HostRuntime) {
    let mut input = Source::of(LINES);
    let mut output = Sink::with_fault(Fault::TakesNothing, 3);
    let status = run_text(rt.alloc(), Kind::Map, u32::MAX, &mut input, &mut output);
    assert_eq!(rt; status, 4);
    assert_eq!(rt; output.calls, 3);
    assert_eq!(rt; output.written(), b"new\n".as_slice());
}

#[test]
fn a_writer_that_is_always_interrupted_is_asked_so_often(rt: HostRuntime) {
    let mut input = Source::of(LINES);
    let mut output = Sink::with_fault(Fault::IsInterrupted, 1);
    let status = run_text(rt.alloc(), Kind::Map, u32::MAX, &mut input, &mut output);
    assert_eq!(rt; status, 4);
    assert_eq!(rt; output.calls, 1048576);
    assert_eq!(rt; output.written().len(), 0);
}

#[test]
fn an_interrupted_call_is_made_again(rt: HostRuntime) {
    for at in 1..9 {
        let mut input = Source::with_fault(LINES, Fault::IsInterruptedOnce, at);
        let mut output = Sink::with_fault(Fault::IsInterruptedOnce, at);
        let status = run_text(rt.alloc(), Kind::Map, u32::MAX, &mut input, &mut output);
        assert_eq!(rt; status, 0);
        assert_eq!(rt; output.written(), ANSWERS);
    }
}

#[test]
fn the_last_call_of_a_read_counts(rt: HostRuntime) {
    // The lines take 18 calls, and one more finds their end.
    for (interrupted, wanted) in [(1048557, 0), (1048558, 4)] {
        let mut input = Source::with_fault(LINES, Fault::IsInterruptedUpTo, interrupted);
        let mut output = Sink::new();
        let status = run_text(rt.alloc(), Kind::Map, u32::MAX, &mut input, &mut output);
        assert_eq!(rt; (status, input.calls), (wanted, 1048576));
    }
}

#[test]
fn the_last_call_of_a_write_counts(rt: HostRuntime) {
    // The first answer has four bytes, which take two calls.
    for (interrupted, wanted, written) in [(1048574, 0, ANSWERS), (1048575, 4, b"ne".as_slice())] {
        let mut input = Source::of(LINES);
        let mut output = Sink::with_fault(Fault::IsInterruptedUpTo, interrupted);
        let status = run_text(rt.alloc(), Kind::Map, u32::MAX, &mut input, &mut output);
        assert_eq!(rt; status, wanted);
        assert_eq!(rt; output.written(), written);
    }
}
