//! Draws rows: frames, lines and wrap marks (docs/reference/formats.md, "Drawing").

ghost use Rattle.std.specs.List.{repeat};
ghost use Rattle.std.specs.Prelude.{◌≡◌, ◌+◌, ◌*◌, ◌^◌, ◌<◌, ◌++◌, ◌∷◌, [], true, false, length, take, drop, Some, Err, OnOk, OnErr, IfOk, IfErr, IsTrue, string_bytes, encode_utf8, if◌then◌else◌};
ghost use Rattle.std.specs.Str.Lines.{strip_carriage_return};
ghost use Rattle.tracing_tree_drawing.specs.Format.Frames.{HasRoom, IsBegun, blanks, corner_pieces, frame_pieces, line_piece, pushed_text, row_of, span_pieces, with_row};
ghost use Rattle.tracing_tree_drawing.specs.Format.Picture.{columns, drawn_row, edge_frame, first_frame, is_last_before_wrap, is_too_wide, later_frame, lined_frame, mark_after_corner, mark_before_corner, mark_line, picture, row_frame, row_lines, row_start, shift_of, unnamed_row, wrapped_level};
ghost use Rattle.tracing_tree_base.specs.Extended.{IsExtended};
ghost use Rattle.tracing_tree_drawing.specs.Format.Texts.{prefix_text};

use super::{Config, SpanMode};
use memchr::memchr;
use std::alloc::AllocError;
use tracing_tree_base::{Context, Refusal};

// More spaces than these are appended in several pieces.
const SPACES: &str = "                                                                ";

/// A row that is being drawn, without its block.
#[derive(Clone, Copy)]
pub struct RowDrawing<'a> {
    /// The settings.
    pub config: &'a Config,

    /// The context of the call, for the prefix of each line.
    pub context: &'a Context,

    /// What the row shows.
    pub mode: SpanMode,

    /// The row's level: a number of spans, before it wraps round.
    pub level: usize,
}

/// The place of a row in the output, in bytes.
#[derive(Clone, Copy)]
pub struct RowPlace {
    /// The start of the row.
    pub start: usize,

    /// The start of its block.
    pub block: usize,
}

// The frame of a line, between its prefix and its text: spaces, a branch, a filler repeated
// `filled` times, and a corner.
#[derive(Clone, Copy)]
struct FramePieces {
    spaces: usize,
    branch: &'static str,
    filler: &'static str,
    filled: usize,
    corner: &'static str,
}

impl FramePieces {
    // Returns a frame of spaces and a branch.
    fn plain(spaces: usize, branch: &'static str) -> FramePieces
        ensures { pushed_text result ≡ frame_pieces spaces branch.now [] 0 [] }
    {
        FramePieces {
            spaces,
            branch,
            filler: "",
            filled: 0,
            corner: "",
        }
    }

    // Returns a frame with two corners in these columns and a line between them. `near` has both
    // corners with one column of line between them, the most common case.
    fn corners(
        left: &'static str,
        right: &'static str,
        near: &'static str,
        from: usize,
        to: usize,
    ) -> FramePieces
        requires order { from < to }
        requires near { near.now ≡ left.now ++ line_piece ++ right.now }
        ensures { pushed_text result ≡ corner_pieces left.now right.now from to }
    {
        if to - from == 2 {
            return FramePieces::plain(from, near);
        }
        FramePieces {
            spaces: from,
            branch: left,
            filler: "─",
            filled: to - from - 1,
            corner: right,
        }
    }

    // Returns the corners of a span's row. In a verbose row the first one is half an amount further
    // right. If the amount is 1, a verbose row has spaces instead.
    fn span(
        left: &'static str,
        right: &'static str,
        near: &'static str,
        verbose: bool,
        amount: usize,
        before: usize,
    ) -> FramePieces
        requires near { near.now ≡ left.now ++ line_piece ++ right.now }
        requires amount { 0 < amount }
        requires fits { before + amount < 2 ^ 64 }
        ensures { pushed_text result ≡ span_pieces left.now right.now verbose amount before }
    {
        if !verbose {
            return FramePieces::corners(left, right, near, before, before + amount);
        }
        if amount < 2 {
            return FramePieces::plain(before, "  ");
        }
        FramePieces::corners(left, right, near, before + amount / 2, before + amount)
    }

    // Appends the pieces in order. If an allocation fails, a part of them may be appended.
    #[inline(always)]
    fn push(&self, out: &mut String) -> Result<(), AllocError>
        ensures ok { OnOk result
            (string_bytes out.new ≡ string_bytes out.old ++ pushed_text self.now) }
        ensures extended { IsExtended (string_bytes out.old) (string_bytes out.new) }
    {
        push_spaces(out, self.spaces)?;
        out.push_str(self.branch)?;
        if self.filled > 0 {
            push_repeated(out, self.filler, self.filled)?;
        }
        if self.corner.is_empty() {
            return Ok(());
        }
        out.push_str(self.corner)
    }
}

// Returns the frame at the left edge: only the corner of a span's row.
fn edge_frame(mode: SpanMode) -> FramePieces
    ensures { pushed_text result ≡ edge_frame mode }
{
    match mode {
        SpanMode::Open { .. } | SpanMode::Retrace { .. } => FramePieces::plain(0, "┐"),
        SpanMode::Close { .. } => FramePieces::plain(0, "┘"),
        SpanMode::PreOpen | SpanMode::PostClose | SpanMode::Event => FramePieces::plain(0, ""),
    }
}

// Returns the frame of the first line of a row further right, with `before` columns before the
// branch.
fn first_frame(mode: SpanMode, amount: usize, before: usize) -> FramePieces
    requires amount { 0 < amount }
    requires fits { before + amount < 2 ^ 64 }
    ensures { pushed_text result ≡ first_frame mode amount before }
{
    let parent = before + (amount / 2).max(1);
    match mode {
        SpanMode::PreOpen => FramePieces::corners("└", "┐", "└─┐", before, parent),
        SpanMode::PostClose => FramePieces::corners("┌", "┘", "┌─┘", before, parent),
        SpanMode::Open { verbose } | SpanMode::Retrace { verbose } => {
            FramePieces::span("└", "┐", "└─┐", verbose, amount, before)
        }
        SpanMode::Close { verbose } => FramePieces::span("┌", "┘", "┌─┘", verbose, amount, before),
        SpanMode::Event if amount == 2 => FramePieces::plain(before, "├─"),
        SpanMode::Event => FramePieces {
            spaces: before,
            branch: "├",
            filler: "─",
            filled: amount - 1,
            corner: "",
        },
    }
}

// Returns the frame of a later line of a row further right.
fn later_frame(mode: SpanMode, amount: usize, before: usize) -> FramePieces
    ensures { pushed_text result ≡ later_frame mode amount before }
{
    let branch = match mode {
        SpanMode::Open { .. } | SpanMode::Retrace { .. } => "  │",
        SpanMode::Close { .. } => " │",
        SpanMode::PreOpen | SpanMode::PostClose | SpanMode::Event => "│",
    };
    FramePieces {
        spaces: before,
        branch,
        filler: " ",
        filled: amount,
        corner: "",
    }
}

// Returns the frame of the first line, or of each later line, of a row that is drawn with lines at
// this wrapped level.
fn lined_frame(mode: SpanMode, amount: usize, wrapped: usize, first: bool) -> FramePieces
    requires level { wrapped + shift_of mode < 2 ^ 64 }
    requires width { (wrapped + shift_of mode) * amount < 2 ^ 64 }
    ensures { pushed_text result
        ≡ lined_frame mode amount wrapped (if first then 0 else 1) }
{
    let used = match mode {
        SpanMode::PreOpen | SpanMode::PostClose => wrapped + 1,
        _ => wrapped,
    };
    if used == 0 {
        return edge_frame(mode);
    }
    if amount == 0 {
        return FramePieces::plain(0, "");
    }
    let before = used * amount - amount;
    if first {
        first_frame(mode, amount, before)
    } else {
        later_frame(mode, amount, before)
    }
}

/// Appends the frame of a row's first line, or of each later line, with lines on. The level isn't
/// wrapped. The caller must ensure that the width in columns fits `usize`.
///
/// # Errors
///
/// `AllocError` if an allocation fails. `out` is unchanged then.
#[tactic(auto, using(tracing_tree_base::proofs::Extended::cuts_back))]
pub fn push_frame(
    out: &mut String,
    mode: SpanMode,
    level: usize,
    amount: usize,
    first: bool,
) -> Result<(), AllocError>
    requires level { level + shift_of mode < 2 ^ 64 }
    requires width { (level + shift_of mode) * amount < 2 ^ 64 }
    ensures ok { OnOk result (string_bytes out.new
        ≡ string_bytes out.old
        ++ lined_frame mode amount level (if first then 0 else 1)) }
    ensures err { OnErr result (string_bytes out.new ≡ string_bytes out.old) }
{
    let length = out.len();
    match lined_frame(mode, amount, level, first).push(out) {
        Ok(()) => Ok(()),
        Err(refused) => {
            out.truncate(length);
            Err(refused)
        }
    }
}

// Returns the corner of the wrap mark before a row that closes.
fn corner_before(mode: SpanMode) -> Option<char>
    ensures { result ≡ mark_before_corner mode }
{
    match mode {
        SpanMode::Close { .. } | SpanMode::PostClose => Some('┐'),
        _ => None,
    }
}

// Returns the corner of the wrap mark after a row that opens.
fn corner_after(mode: SpanMode) -> Option<char>
    ensures { result ≡ mark_after_corner mode }
{
    match mode {
        SpanMode::PreOpen | SpanMode::Open { .. } => Some('┘'),
        _ => None,
    }
}

// Appends a string. Many are empty, as that of a plain close.
#[inline(always)]
fn push_text(out: &mut String, text: &str) -> Result<(), AllocError>
    ensures ok { OnOk result (string_bytes out.new ≡ string_bytes out.old ++ text.now) }
    ensures extended { IsExtended (string_bytes out.old) (string_bytes out.new) }
{
    if text.is_empty() {
        return Ok(());
    }
    out.push_str(text)
}

// Appends a string `times` times, with one growth. If an allocation fails, fewer may be appended.
fn push_repeated(out: &mut String, text: &str, times: usize) -> Result<(), AllocError>
    ensures ok { OnOk result
        (string_bytes out.new ≡ string_bytes out.old ++ repeat times text.now) }
    ensures extended { IsExtended (string_bytes out.old) (string_bytes out.new) }
{
    let room = text.len().checked_mul(times).ok_or(AllocError)?;
    out.reserve(room)?;
    for _ in 0..times {
        out.push_str(text)?;
    }
    Ok(())
}

// Appends `count` spaces. If an allocation fails, fewer may be appended.
#[inline(always)]
fn push_spaces(out: &mut String, count: usize) -> Result<(), AllocError>
    ensures ok { OnOk result
        (string_bytes out.new ≡ string_bytes out.old ++ blanks count) }
    ensures extended { IsExtended (string_bytes out.old) (string_bytes out.new) }
{
    if count == 0 {
        return Ok(());
    }
    if count > SPACES.len() {
        return push_many_spaces(out, count);
    }
    out.push_str(&SPACES[..count])
}

// Like `push_spaces`, for any number. Few rows are so far right, so this isn't inlined.
#[inline(never)]
fn push_many_spaces(out: &mut String, count: usize) -> Result<(), AllocError>
    ensures ok { OnOk result
        (string_bytes out.new ≡ string_bytes out.old ++ blanks count) }
    ensures extended { IsExtended (string_bytes out.old) (string_bytes out.new) }
{
    push_repeated(out, SPACES, count / SPACES.len())?;
    out.push_str(&SPACES[..count % SPACES.len()])
}

// Removes one carriage return from the end of a line.
fn without_return(line: &str) -> &str
    ensures { result.now ≡ strip_carriage_return line.now }
{
    line.strip_suffix('\r').unwrap_or(line)
}

/// Appends the picture of a row with this block at this level. The level is a number of spans,
/// before it wraps round.
///
/// # Errors
///
/// `TooWide` if the row's width exceeds `usize::MAX` columns. `Memory` if an allocation fails.
/// `out` is unchanged after both.
#[tactic(auto, using(tracing_tree_base::proofs::Extended::cuts_back))]
pub fn push_row(
    out: &mut String,
    block: &str,
    level: usize,
    config: &Config,
    mode: SpanMode,
    context: &Context,
) -> Result<(), Refusal>
    ensures ok { let prefix = prefix_text config.now context.now in
        let row = unnamed_row mode level block.now prefix in
        OnOk result (string_bytes out.new ≡ string_bytes out.old ++ drawn_row config.now row) }
    ensures fits { let row = unnamed_row mode level [] [] in
        OnOk result (is_too_wide config.now row ≡ false) }
    ensures refusal { let row = unnamed_row mode level [] [] in
        IfErr result (λ refusal.
        refusal ≡ (if is_too_wide config.now row then Refusal.TooWide else Refusal.Memory)) }
    ensures err { OnErr result (string_bytes out.new ≡ string_bytes out.old) }
{
    config.check_width(mode, level)?;
    let drawing = RowDrawing {
        config,
        context,
        mode,
        level,
    };
    let length = out.len();
    match drawing.row(out, block) {
        Ok(()) => Ok(()),
        Err(_) => {
            out.truncate(length);
            Err(Refusal::Memory)
        }
    }
}

impl RowDrawing<'_> {
    /// Appends everything before the row's block. Returns the starts of the row and of its block.
    /// The caller then appends the block, and calls [`RowDrawing::end`].
    ///
    /// # Errors
    ///
    /// `TooWide` if the row's width exceeds `usize::MAX` columns. `Memory` if an allocation fails.
    /// `out` is unchanged after both.
    #[inline(always)]
    pub fn begin(&self, out: &mut String) -> Result<RowPlace, Refusal>
        ensures ok { OnOk result (string_bytes out.new ≡ string_bytes out.old
            ++ row_start self.now.config.now (row_of self.now [])) }
        ensures place { IfOk result (λ place. place ≡ record {
          start = length (string_bytes out.old);
          block = length (string_bytes out.new);
        }) }
        ensures fits { OnOk result (is_too_wide self.now.config.now (row_of self.now []) ≡ false) }
        ensures refusal { IfErr result (λ refusal.
            refusal ≡ (if is_too_wide self.now.config.now (row_of self.now []) then Refusal.TooWide
            else Refusal.Memory)) }
        ensures err { OnErr result (string_bytes out.new ≡ string_bytes out.old) }
    {
        self.config.check_width(self.mode, self.level)?;
        let start = out.len();
        if self.push_start(out).is_err() {
            out.truncate(start);
            return Err(Refusal::Memory);
        }
        let block = out.len();
        Ok(RowPlace { start, block })
    }

    /// Finishes a row: replaces what [`RowDrawing::begin`] appended at this place, and the block
    /// after it, by the row's picture. The caller must ensure that `begin` returned this place, and
    /// that the output before the block is unchanged since.
    ///
    /// # Errors
    ///
    /// `AllocError` if an allocation fails. The whole row is removed from `out` then.
    #[inline(always)]
    pub fn end(&self, out: &mut String, place: RowPlace) -> Result<(), AllocError>
        requires { IsBegun self.now place (string_bytes out.old) }
        ensures ok { OnOk result
            (string_bytes out.new ≡ with_row self.now place (string_bytes out.old)) }
        ensures err { OnErr result
            (string_bytes out.new ≡ take place.start (string_bytes out.old)) }
    {
        if self.finish(out, place).is_err() {
            out.truncate(place.start);
            return Err(AllocError);
        }
        Ok(())
    }

    // Finishes a row. If an allocation fails, a part of the row may be left.
    #[inline(always)]
    fn finish(&self, out: &mut String, place: RowPlace) -> Result<(), AllocError>
        requires { IsBegun self.now place (string_bytes out.old) }
        ensures ok { OnOk result
            (string_bytes out.new ≡ with_row self.now place (string_bytes out.old)) }
        ensures extended { IsExtended (take place.start (string_bytes out.old))
            (string_bytes out.new) }
    {
        if self.is_line(&out.as_str()[place.block..]) {
            out.push('\n')?;
            return self.mark(out, corner_after(self.mode));
        }
        self.draw_anew(out, place)
    }

    // Finishes a row whose block isn't one line that can stay unchanged: removes the block, and
    // draws the row again.
    #[inline(never)]
    fn draw_anew(&self, out: &mut String, place: RowPlace) -> Result<(), AllocError>
        requires { IsBegun self.now place (string_bytes out.old) }
        ensures ok { OnOk result
            (string_bytes out.new ≡ with_row self.now place (string_bytes out.old)) }
        ensures extended { IsExtended (take place.start (string_bytes out.old))
            (string_bytes out.new) }
    {
        let block = out.split_off(place.block)?;
        out.truncate(place.start);
        self.row(out, block.as_str())
    }

    // Returns whether the block is one line and can stay unchanged.
    #[inline(always)]
    fn is_line(&self, block: &str) -> bool
        ensures { IsTrue result
            → row_lines self.now.config.now.indent_lines block.now ≡ block.now ∷ [] }
    {
        if memchr(b'\n', block.as_bytes()).is_some() {
            return false;
        }
        if self.config.indent_lines() {
            return !block.ends_with('\r');
        }
        !block.is_empty()
    }

    // Appends everything before the block. If an allocation fails, a part of it may be appended.
    #[inline(always)]
    fn push_start(&self, out: &mut String) -> Result<(), AllocError>
        requires { is_too_wide self.now.config.now (row_of self.now []) ≡ false }
        ensures ok { OnOk result (string_bytes out.new ≡ string_bytes out.old
            ++ row_start self.now.config.now (row_of self.now [])) }
        ensures extended { IsExtended (string_bytes out.old) (string_bytes out.new) }
    {
        self.mark(out, corner_before(self.mode))?;
        self.config.push_prefix(out, self.context)?;
        self.frame(true).push(out)
    }

    // Appends the lines of a block, and the row's wrap mark before or after them. If an allocation
    // fails, a part of them may be appended.
    fn row(&self, out: &mut String, block: &str) -> Result<(), AllocError>
        requires { is_too_wide self.now.config.now (row_of self.now block.now) ≡ false }
        ensures ok { OnOk result
            (string_bytes out.new ≡ string_bytes out.old
            ++ drawn_row self.now.config.now (row_of self.now block.now)) }
        ensures extended { IsExtended (string_bytes out.old) (string_bytes out.new) }
    {
        self.mark(out, corner_before(self.mode))?;
        self.lines(out, block)?;
        self.mark(out, corner_after(self.mode))
    }

    // Appends the lines of a block. If an allocation fails, a part of them may be appended. With
    // lines on, what follows the last line end is a line even if it is empty, and it too loses its
    // carriage return.
    fn lines(&self, out: &mut String, block: &str) -> Result<(), AllocError>
        requires { HasRoom self.now }
        ensures ok { OnOk result
            (string_bytes out.new ≡ string_bytes out.old
            ++ picture self.now.config.now (row_of self.now block.now)) }
        ensures extended { IsExtended (string_bytes out.old) (string_bytes out.new) }
    {
        let mut frame = self.frame(true);
        let mut rest = block;
        while let Some((line, others)) = rest.split_once('\n') {
            self.line(out, &frame, without_return(line))?;
            frame = self.frame(false);
            rest = others;
        }
        if self.config.indent_lines() {
            return self.line(out, &frame, without_return(rest));
        }
        if rest.is_empty() {
            return Ok(());
        }
        self.line(out, &frame, rest)
    }

    // Appends one line. If an allocation fails, a part of it may be appended.
    #[inline(always)]
    fn line(&self, out: &mut String, frame: &FramePieces, text: &str) -> Result<(), AllocError>
        ensures ok { OnOk result (string_bytes out.new ≡ string_bytes out.old
            ++ (prefix_text self.now.config.now self.now.context.now ++ pushed_text frame.now
            ++ text.now ++ 10 ∷ [])) }
        ensures extended { IsExtended (string_bytes out.old) (string_bytes out.new) }
    {
        self.config.push_prefix(out, self.context)?;
        frame.push(out)?;
        push_text(out, text)?;
        out.push('\n')
    }

    // Returns the level that the indent is counted by.
    fn wrapped_level(&self) -> usize
        ensures value { result ≡ wrapped_level self.now.config.now self.now.level }
        ensures below { result + 1 < 2 ^ 64 }
    {
        self.config.wrapped_level(self.level)
    }

    // Returns the frame of the first line, or of each later line.
    #[inline(always)]
    fn frame(&self, first: bool) -> FramePieces
        requires { HasRoom self.now }
        ensures { pushed_text result
            ≡ row_frame self.now.config.now self.now.mode self.now.level
            (if first then 0 else 1) }
    {
        let wrapped = self.wrapped_level();
        let amount = self.config.indent_amount();
        if !self.config.indent_lines() {
            return FramePieces::plain(wrapped * amount, if first { " " } else { "   " });
        }
        lined_frame(self.mode, amount, wrapped, first)
    }

    // Returns whether the levels wrap round after this one.
    fn is_last_before_wrap(&self) -> bool
        ensures { result ≡ is_last_before_wrap self.now.config.now self.now.level }
    {
        let last = self.config.wraparound() - 1;
        self.config.indent_lines() && self.level > 0 && self.wrapped_level() == last
    }

    // Appends the row's wrap mark, if it has one and the levels wrap round after this one. If an
    // allocation fails, a part of it may be appended.
    #[inline(always)]
    fn mark(&self, out: &mut String, corner: Option<char>) -> Result<(), AllocError>
        requires { HasRoom self.now }
        ensures ok { OnOk result
            (string_bytes out.new ≡ string_bytes out.old
            ++ mark_line self.now.config.now (row_of self.now []) corner) }
        ensures extended { IsExtended (string_bytes out.old) (string_bytes out.new) }
    {
        match corner {
            Some(corner) if self.is_last_before_wrap() => self.mark_line(out, corner),
            _ => Ok(()),
        }
    }

    // Appends a line of `─` as wide as the indent, and the corner. If an allocation fails, a part
    // of it may be appended.
    fn mark_line(&self, out: &mut String, corner: char) -> Result<(), AllocError>
        requires room { HasRoom self.now }
        requires last { is_last_before_wrap self.now.config.now self.now.level ≡ true }
        ensures ok { OnOk result
            (string_bytes out.new ≡ string_bytes out.old
            ++ mark_line self.now.config.now (row_of self.now []) (Some corner)) }
        ensures extended { IsExtended (string_bytes out.old) (string_bytes out.new) }
    {
        let indent = self.wrapped_level() * self.config.indent_amount();
        self.config.push_prefix(out, self.context)?;
        push_repeated(out, "─", indent)?;
        out.push(corner)?;
        out.push_str("\n")
    }
}
