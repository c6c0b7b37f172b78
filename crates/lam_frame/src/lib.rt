//! Framing of the LSP base protocol: conversion between bytes and message bodies.
//!
//! A [`FrameReader`] returns the bodies of the frames from a [`Source`] one after another, regardless of how its pulls split the
//! bytes, and reports each error exactly where it occurs in the bytes. [`write_frame`] writes one whole frame to a [`Sink`] and
//! flushes it. Every input splits into frames and a rest in exactly one way.
//!
//! This crate does not deal with JSON, messages, sessions, or the meaning of a body.
#![tactic(auto)]

mod bytes;
mod device;
mod fail_at;
mod fault;
mod header;
mod held;
mod laws;
mod reader;
mod streams;
mod writer;

pub use bytes::{BytesIn, BytesOut};
pub use device::{DeviceFault, Sink, Source};
pub use fail_at::FailAt;
pub use fault::FrameFault;
pub use laws::{one_reading, open_settles_nothing, some_reading, written_is_read};
pub use reader::{FrameReader, State};
pub use streams::{FromRead, ToWrite};
pub use writer::write_frame;
