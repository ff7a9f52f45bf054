// What a worker leaves of a reply: its number and its text, so that no more than bytes are put together when all have come.
ghost use Rattle.std.specs.Prelude.{◌≡◌, ◌++◌, ◌==◌, IfOk, OnOk, if◌then◌else◌};
ghost use Rattle.bp_document.specs.declared.document.Document.{Document as AnyDocument};
ghost use Rattle.bp_document.specs.Ranges.{IsDocument};
ghost use Rattle.bp_document.specs.Text.{doc_text};
ghost use Rattle.bp_engine.specs.declared.status.Status.{Status as AnyStatus};
ghost use Rattle.bp_engine.specs.Texts.{text_of};
ghost use Rattle.boxpleat_batch.specs.Replies.{Designed, Refused, reply_head};
ghost use Rattle.boxpleat_batch.specs.Slots.{IsTold};

use bp_base::{Failed, NoMemory};
use bp_document::{Document, write_document};
use bp_engine::{Status, Text, put_status};
use bp_text::{Digits, put, put_parts};
use bp_tree::TreeFault;
use std::alloc::Global;

/// A reply as it is told: the number behind `reply K`, and the text behind that line.
#[derive(Drop)]
pub struct Told {
    pub how: u64,
    pub body: Vec<u8>,
}

// That bytes are no tree, with their first fault.
pub fn told_fault(alloc: Global, fault: TreeFault) -> Result<Told, NoMemory>
    ensures { IfOk result (IsTold (Refused fault)) }
{
    let mut text = Text::new(alloc);
    match put_status(&mut text, Status::TreeRefused(fault)) {
        Ok(()) => Ok(Told {
            how: 1,
            body: text.bytes,
        }),
        Err(Failed) => Err(NoMemory),
    }
}

// The design of their tree.
pub fn told_design(alloc: Global, document: &Document) -> Result<Told, NoMemory>
    requires { IsDocument document.now }
    ensures { IfOk result (IsTold (Designed document.now)) }
{
    let mut text = Text::new(alloc);
    match write_document(document, &mut text) {
        Ok(()) => Ok(Told {
            how: number_of(document),
            body: text.bytes,
        }),
        Err(Failed) => Err(NoMemory),
    }
}

fn number_of(document: &Document) -> u64
    ensures { result ≡ (if document.now.bound == document.now.side then 0 else 3) }
{
    if document.bound == document.side {
        0
    } else {
        3
    }
}

// Adds the reply of this number.
pub fn add_reply(text: &mut Text, number: u64, told: &Told) -> Result<(), NoMemory>
    ensures { OnOk result (text.new.bytes.items ≡ text.old.bytes.items ++ (reply_head number told.now.how ++ told.now.body.items)) }
{
    add_head(text, number, told.how)?;
    match put(text, &told.body) {
        Ok(()) => Ok(()),
        Err(Failed) => Err(NoMemory),
    }
}

fn add_head(text: &mut Text, number: u64, how: u64) -> Result<(), NoMemory>
    ensures { OnOk result (text.new.bytes.items ≡ text.old.bytes.items ++ reply_head number how) }
{
    let mut digits = Digits::new();
    let mut more = Digits::new();
    let parts = [b"reply ", digits.of(number), b" ", more.of(how), b"\n"];
    match put_parts(text, &parts) {
        Ok(()) => Ok(()),
        Err(Failed) => Err(NoMemory),
    }
}
