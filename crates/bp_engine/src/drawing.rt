// `contours`, `pieces` and `picture`: the loops along the regions of a design's edges, their pieces and holes, or a picture of them.
ghost use Rattle.std.specs.Prelude.{◌≡◌, ◌↔◌, ◌<◌, ◌≤◌, ◌++◌, ◌∷◌, [], codes, decimal, map, IfOk, IfErr, IsTrue, OnOk};
ghost use Rattle.std.specs.List.{flat_map};
ghost use Rattle.bp_base.specs.declared.point.Sheet.TheVariants.{Square as square};
ghost use Rattle.bp_base.specs.Causes.{Rose};
ghost use Rattle.bp_base.specs.Limits.{most_number};
ghost use Rattle.bp_base.specs.Tree.{name_of, node_count};
ghost use Rattle.bp_document.specs.declared.document.Document.{Document as AnyDocument};
ghost use Rattle.bp_check.specs.Streams.{IsRefused as IsRefusedDoc};
ghost use Rattle.bp_document.specs.Ranges.{IsDocument};
ghost use Rattle.bp_metric.specs.Valid.{Valid};
ghost use Rattle.bp_contour.specs.declared.loops.Loop.{Loop as AnyLoop};
ghost use Rattle.bp_engine.specs.Documents.{IsContourText, IsDrawing, IsDrawn, IsPieceText, IsReasonOn, edge_text, loop_line, no_text, part_line, point_words, reason_text, report_text};
ghost use Rattle.bp_engine.specs.Drawings.{AnswersBytes, AnswersDocBytes, AnswersDrawn, Draws, IsRefusedAsOpened, OpensCertificate, ReadsNothing, Refuses};
ghost use Rattle.bp_engine.specs.Outcomes.{IsFinal};
ghost use Rattle.bp_engine.specs.Run.{IsSilent};
ghost use Rattle.bp_engine.specs.Texts.{MayWrite};

use crate::Status;
use crate::answering::{Answer, write_answered};
use crate::certified::certificate_drawn;
use crate::picturing::layout_text;
use bp_base::{
    MOST_DOCUMENT_BYTES, NoMemory, Piece, Placement, Point, ReadError, Report, Sequence, Sheet,
    Sink, Source, Tree, read_whole,
};
use bp_check::{Reason, Verdict, check};
use bp_contour::{Loop, contours};
use bp_document::{Document, ReadDoc, read_document};
use bp_metric::Metric;
use bp_pieces::report;
use bp_regions::Regions;
use bp_text::Digits;
use std::alloc::Global;

// What is drawn of a document or a certificate.
#[derive(Clone, Copy)]
pub enum Drawing {
    Loops,
    Parts,
    Layout,
}

// Reads the document or the certificate, and writes its drawing, or why it has none.
pub fn draw<D: Source, K: Sink>(
    alloc: Global,
    drawing: Drawing,
    source: &mut D,
    out: &mut K,
) -> Status
    ensures draws { Draws drawing (D.left source.old) (D.left source.new) (K.held out.old) (K.held out.new) result }
    ensures unwritten { (MayWrite result → ⊥) → out.new ≡ out.old }
    ensures loud { IsSilent result → ⊥ }
    ensures read { result ≡ Status.ReadFault → Rose (D.faults source.old) (D.faults source.new) }
    ensures write { result ≡ Status.WriteFault → Rose (K.faults out.old) (K.faults out.new) }
{
    let answered = drawn_from(alloc, drawing, source);
    write_answered(answered, out)
}

// What answers the bytes of the source, or the status where they are no text.
fn drawn_from<D: Source>(alloc: Global, drawing: Drawing, source: &mut D) -> Result<Answer, Status>
    ensures answers { IfOk result (λ a. AnswersDrawn drawing (D.left source.old) (D.left source.new) a.status a.text.items) }
    ensures ends { IfOk result (λ a. IsFinal a.status) }
    ensures none { IfErr result (λ s. ReadsNothing (D.left source.old) (D.left source.new) s) }
    ensures failed { IfErr result (λ s. s ≡ Status.ReadFault → Rose (D.faults source.old) (D.faults source.new)) }
{
    match read_whole(alloc, source, MOST_DOCUMENT_BYTES + 1) {
        Ok(bytes) => bytes_drawn(alloc, drawing, &bytes),
        Err(ReadError::Failed) => Err(Status::ReadFault),
        Err(ReadError::NoMemory) => Err(Status::NoMemory),
    }
}

fn bytes_drawn(alloc: Global, drawing: Drawing, bytes: &[u8]) -> Result<Answer, Status>
    ensures answers { IfOk result (λ a. AnswersBytes drawing bytes.now a.status a.text.items) }
    ensures ends { IfOk result (λ a. IsFinal a.status) }
    ensures none { IfErr result (λ s. Refuses IsRefusedAsOpened bytes.now s) }
{
    if opens_certificate(bytes) {
        certificate_drawn(alloc, drawing, bytes)
    } else {
        document_drawn(alloc, drawing, bytes)
    }
}

// Whether the first line is a certificate's.
fn opens_certificate(bytes: &[u8]) -> bool
    ensures { IsTrue result ↔ OpensCertificate bytes.now }
{
    bytes.starts_with(b"boxpleat 3\n")
}

fn document_drawn(alloc: Global, drawing: Drawing, bytes: &[u8]) -> Result<Answer, Status>
    ensures answers { IfOk result (λ a. AnswersDocBytes drawing bytes.now a.status a.text.items) }
    ensures ends { IfOk result (λ a. IsFinal a.status) }
    ensures none { IfErr result (λ s. Refuses IsRefusedDoc bytes.now s) }
{
    match read_document(alloc, bytes) {
        Ok(document) => match drawn(alloc, drawing, document) {
            Ok(answer) => Ok(answer),
            Err(NoMemory) => Err(Status::NoMemory),
        },
        Err(ReadDoc::Fault(fault)) => Err(Status::DocRefused(fault)),
        Err(ReadDoc::NoMemory) => Err(Status::NoMemory),
    }
}

fn drawn(alloc: Global, drawing: Drawing, document: Document) -> Result<Answer, NoMemory>
    requires { IsDocument document }
    ensures answer { IfOk result (λ a. IsDrawn drawing document a.status a.text.items) }
    ensures ends { IfOk result (λ a. IsFinal a.status) }
{
    match document.sheet {
        Sheet::Strip { .. } => refused(alloc, drawing, Reason::StripSheet),
        Sheet::Square => drawn_on_square(alloc, drawing, document),
    }
}

fn drawn_on_square(alloc: Global, drawing: Drawing, document: Document) -> Result<Answer, NoMemory>
    requires ranges { IsDocument document }
    requires square { document.sheet ≡ square }
    ensures answer { IfOk result (λ a. IsDrawn drawing document a.status a.text.items) }
    ensures ends { IfOk result (λ a. IsFinal a.status) }
{
    match check(alloc, &document.tree, &document)? {
        Verdict::Yes => {
            let text = drawing_text(alloc, drawing, document)?;
            Ok(Answer {
                status: Status::Done,
                text,
            })
        }
        Verdict::No(reason) => refused(alloc, drawing, reason),
    }
}

pub fn refused(alloc: Global, drawing: Drawing, reason: Reason) -> Result<Answer, NoMemory>
    ensures answer { (D : AnyDocument) → IsReasonOn D.sheet D reason → IfOk result (λ a. IsDrawn drawing D a.status a.text.items) }
    ensures told { IfOk result (λ a. (a.status ≡ Status.No reason) × (a.text.items ≡ no_text reason)) }
    ensures ends { IfOk result (λ a. IsFinal a.status) }
{
    let _ = drawing;
    let text = no_text(alloc, reason)?;
    Ok(Answer {
        status: Status::No(reason),
        text,
    })
}

#[tactic(auto, unfolding(crate::specs::Documents::no_text))]
pub fn no_text(alloc: Global, reason: Reason) -> Result<Vec<u8>, NoMemory>
    ensures { IfOk result (λ v. v.items ≡ no_text reason) }
{
    let mut text = Vec::new(alloc);
    text.extend_from_slice(b"no ")?;
    add_reason(&mut text, reason)?;
    text.extend_from_slice(b"\n")?;
    Ok(text)
}

fn add_reason(text: &mut Vec<u8>, reason: Reason) -> Result<(), NoMemory>
    ensures { OnOk result (text.new.items ≡ text.old.items ++ reason_text reason) }
{
    match reason {
        Reason::TreeDiffers => add(text, b"TreeDiffers"),
        Reason::Outside { i } => add_numbered(text, b"Outside ", i),
        Reason::TooNear { i, j } => {
            add_numbered(text, b"TooNear ", i)?;
            add_numbered(text, b" ", j)
        }
        Reason::BadFloor => add(text, b"BadFloor"),
        Reason::BadSplit { node } => add_numbered(text, b"BadSplit ", node),
        Reason::BadChain { node } => add_numbered(text, b"BadChain ", node),
        Reason::BoundNotShown => add(text, b"BoundNotShown"),
        Reason::StripSheet => add(text, b"StripSheet"),
    }
}

pub fn add(text: &mut Vec<u8>, bytes: &[u8]) -> Result<(), NoMemory>
    ensures { OnOk result (text.new.items ≡ text.old.items ++ bytes.now) }
{
    text.extend_from_slice(bytes)?;
    Ok(())
}

pub fn add_numbered(text: &mut Vec<u8>, start: &[u8], number: u64) -> Result<(), NoMemory>
    ensures { OnOk result (text.new.items ≡ text.old.items ++ start.now ++ decimal number) }
{
    let mut digits = Digits::new();
    add(text, start)?;
    add(text, digits.of(number))
}

// The drawing of a document that checks.
pub fn drawing_text(
    alloc: Global,
    drawing: Drawing,
    document: Document,
) -> Result<Vec<u8>, NoMemory>
    requires side { document.side ≤ most_number }
    requires valid { Valid document.tree square 1 document.side document.points }
    ensures { IfOk result (λ v. IsDrawing drawing document.tree document.side document.bound document.points v.items) }
{
    let metric = Metric::on(alloc, &document.tree, Sheet::Square)?;
    let bound = document.bound;
    let placement = Placement {
        side: document.side,
        points: document.points,
    };
    let regions = Regions::of(alloc, &metric, &placement)?;
    match drawing {
        Drawing::Loops => loops_text(alloc, &regions),
        Drawing::Parts => parts_text(alloc, &regions),
        Drawing::Layout => layout_text(alloc, &metric, &placement, bound, &regions),
    }
}

fn loops_text(alloc: Global, regions: &Regions) -> Result<Vec<u8>, NoMemory>
    ensures { IfOk result (λ v. IsContourText regions.now.tree regions.now.side regions.now.points v.items) }
{
    let tree = regions.tree();
    let mut text = Vec::new(alloc);
    add(&mut text, b"contours 1\n")?;
    for edge in 1..tree.parents().len() as u64 {
        let loops = contours(alloc, regions, edge)?;
        add_edge(&mut text, name_at(tree, edge), &loops)?;
    }
    add(&mut text, b"end\n")?;
    Ok(text)
}

fn parts_text(alloc: Global, regions: &Regions) -> Result<Vec<u8>, NoMemory>
    ensures { IfOk result (λ v. IsPieceText regions.now.tree regions.now.side regions.now.points v.items) }
{
    let tree = regions.tree();
    let mut text = Vec::new(alloc);
    add(&mut text, b"pieces 1\n")?;
    for edge in 1..tree.parents().len() as u64 {
        let found = report(alloc, regions, edge)?;
        add_report(&mut text, name_at(tree, edge), &found)?;
    }
    add(&mut text, b"end\n")?;
    Ok(text)
}

fn name_at(tree: &Tree, node: u64) -> &[u8]
    requires { node < node_count tree.now }
    ensures { result.now ≡ name_of tree.now node }
{
    tree.names()[node as usize].bytes()
}

#[tactic(auto, unfolding(crate::specs::Documents::edge_text))]
fn add_edge(text: &mut Vec<u8>, name: &[u8], loops: &[Loop]) -> Result<(), NoMemory>
    ensures { OnOk result (text.new.items ≡ text.old.items ++ edge_text name.now (map (λ (l : AnyLoop). l.points) loops.now)) }
{
    add(text, b"edge ")?;
    add(text, name)?;
    add(text, b"\n")?;
    add_loops(text, loops)
}

fn add_loops(text: &mut Vec<u8>, loops: &[Loop]) -> Result<(), NoMemory>
    ensures { OnOk result (text.new.items ≡ text.old.items ++ flat_map loop_line (map (λ (l : AnyLoop). l.points) loops.now)) }
{
    for around in loops {
        add_loop(text, around.points.as_slice())?;
    }
    Ok(())
}

#[tactic(auto, unfolding(crate::specs::Documents::loop_line))]
fn add_loop(text: &mut Vec<u8>, points: &[Point]) -> Result<(), NoMemory>
    ensures { OnOk result (text.new.items ≡ text.old.items ++ loop_line points.now) }
{
    add(text, b"loop")?;
    add_points(text, points)?;
    add(text, b"\n")
}

fn add_points(text: &mut Vec<u8>, points: &[Point]) -> Result<(), NoMemory>
    ensures { OnOk result (text.new.items ≡ text.old.items ++ flat_map point_words points.now) }
{
    for point in points {
        add_point(text, *point)?;
    }
    Ok(())
}

fn add_point(text: &mut Vec<u8>, point: Point) -> Result<(), NoMemory>
    ensures { OnOk result (text.new.items ≡ text.old.items ++ point_words point) }
{
    add_numbered(text, b" ", point.x)?;
    add_numbered(text, b" ", point.y)
}

#[tactic(auto, unfolding(crate::specs::Documents::report_text))]
fn add_report(text: &mut Vec<u8>, name: &[u8], found: &Report) -> Result<(), NoMemory>
    ensures { OnOk result (text.new.items ≡ text.old.items ++ report_text name.now found.now) }
{
    add(text, b"edge ")?;
    add(text, name)?;
    add(text, b"\n")?;
    add_parts(text, b"piece", found.pieces.as_slice())?;
    add_parts(text, b"hole", found.holes.as_slice())
}

fn add_parts(text: &mut Vec<u8>, word: &[u8], parts: &[Piece]) -> Result<(), NoMemory>
    ensures { OnOk result (text.new.items ≡ text.old.items ++ flat_map (part_line word.now) parts.now) }
{
    for part in parts {
        add_part(text, word, *part)?;
    }
    Ok(())
}

#[tactic(auto, unfolding(crate::specs::Documents::part_line))]
fn add_part(text: &mut Vec<u8>, word: &[u8], part: Piece) -> Result<(), NoMemory>
    ensures { OnOk result (text.new.items ≡ text.old.items ++ part_line word.now part) }
{
    add(text, word)?;
    add_point(text, part.at)?;
    add_numbered(text, b" ", part.area)?;
    add(text, b"\n")
}
