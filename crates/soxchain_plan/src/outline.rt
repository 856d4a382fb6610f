//! The content of a plan, and how it is shown.
ghost use Rattle.std.specs.Prelude.{◌≡◌, ◌*◌, ◌+◌, ◌-◌, ◌^◌, ◌<◌, ◌≤◌, false, IfOk, IfSome, List, None, OnOk, Some, length, map, min, sum_by};
ghost use Rattle.std.specs.Io.KnownBytes.{Appends};
ghost use Rattle.std.specs.List.{All};
ghost use Rattle.fx_frame_base.specs.Coding.{width_of};
ghost use Rattle.fx_plan_effects.specs.Bounds.{hold_all, is_too_long};
ghost use Rattle.fx_plan_effects.specs.Effects.{Usable, act};
ghost use Rattle.fx_plan_effects.specs.Meanings.{InPlace, line_of_act, meaning_at, recipe_at};
ghost use Rattle.fx_chain_flow.specs.Composed.{composed, composed_wholes};
ghost use Rattle.fx_frame_base.specs.Frame.{IsChannelCount, Samples};
ghost use Rattle.fx_chain_stages.specs.Made.{recipes_for};
ghost use Rattle.fx_plan.specs.Planning.{planning};
ghost use Rattle.soxchain_plan.specs.Outlines.{IsOutline, announced_frames, bytes_along, held_bytes, known, rates_along, size_in, stated, stated_bytes, stated_frames, stated_rate, whole_frames};
ghost use Rattle.soxchain_plan.specs.Shown.{beyond_json, beyond_line, effect_json, effect_line, effect_lines, effects_json, empty_json, empty_line, frames_json, frames_text, outline_json, outline_text, shown, size_json, size_line, sound_json, sound_line};

use crate::lengths::{bytes_held, in_milliseconds, lateness, rate_after};
use crate::quoting::{bits_of, name_of_kind};
use crate::style::Style;
use fx_plan::Plan;
use fx_plan_effects::Effect;
use fx_plan_lengths::frames_after;
use fx_sound::{Head, Kind};
use std::alloc::{AllocError, Global};
use std::io;
use std::io::Write;

/// What is reported of a sound.
#[derive(Clone, Copy, Drop)]
pub struct SoundOutline {
    kind: Kind,
    rate: u32,
    channels: usize,
    bits: usize,
    /// The frames; None where that is not known before the end.
    frames: Option<u64>,
}

/// What a head says of the size of its sound.
#[derive(Clone, Copy, Debug, Drop, PartialEq, Eq)]
pub enum SizeInHead {
    /// No bytes.
    Zero,
    /// None that is known: the sound goes up to the end of the input.
    Unknown,
    /// How many bytes it has.
    Known,
}

/// What is reported of an effect.
#[derive(Clone, Copy, Drop)]
pub struct EffectOutline {
    name: &'static str,
    /// The frames per second of its input.
    rate: u32,
    /// The frames that it may hold.
    hold: u64,
    /// The bytes of their samples.
    bytes: u64,
    /// Its latency, in frames of its input.
    late: u64,
    /// The frames that it gives in all.
    frames: Option<u64>,
}

/// The content of a plan.
#[derive(Drop)]
pub struct Outline {
    input: SoundOutline,
    size: SizeInHead,
    /// The bytes of IN after the end that its head announces; None where that is not known.
    beyond: Option<u64>,
    effects: Vec<EffectOutline>,
    hold: u64,
    bytes: u64,
    output: SoundOutline,
}

/// The whole frames that a head announces.
fn frames_in(head: &Head) -> Option<u64>
    requires channels { IsChannelCount head.now.channels }
    ensures { result ≡ announced_frames head.now }
{
    let size = head.channels * head.coding.width();
    Some(head.announced? / size as u64)
}

/// What a head says of the size of its sound.
fn size_in(head: &Head) -> SizeInHead
    ensures { result ≡ size_in head.now.announced }
{
    match head.announced {
        Some(0) => SizeInHead::Zero,
        Some(_) => SizeInHead::Known,
        None => SizeInHead::Unknown,
    }
}

/// The content of the head of the input.
fn input_of(head: &Head) -> SoundOutline
    requires channels { IsChannelCount head.now.channels }
    ensures kind { result.kind ≡ head.now.kind }
    ensures rate { result.rate ≡ head.now.rate }
    ensures channels { result.channels ≡ head.now.channels }
    ensures bits { result.bits ≡ 8 * width_of head.now.coding }
    ensures frames { result.frames ≡ announced_frames head.now }
{
    SoundOutline {
        kind: head.kind,
        rate: head.rate,
        channels: head.channels,
        bits: bits_of(head.coding),
        frames: frames_in(head),
    }
}

/// The report on an effect that takes `rate` frames per second, of `channels` channels, and `frames` frames in all.
fn outline_of_effect(
    effect: &Effect,
    rate: u32,
    channels: usize,
    frames: Option<u64>,
) -> EffectOutline
    requires usable { Usable (act effect.now) }
    requires held { line_of_act (act effect.now) < 2 ^ 28 }
    requires bound { channels ≤ 16 }
    ensures stated { stated result ≡ known (act effect.now) }
    ensures rate { result.rate ≡ rate }
    ensures bytes { result.bytes ≡ held_bytes (InPlace channels (act effect.now)) }
    ensures frames { (sound : List Samples) → frames ≡ Some (length sound)
        → result.frames ≡ Some (min (length (meaning_at (recipe_at (InPlace channels (act effect.now))) sound)) (2 ^ 64 - 1)) }
    ensures unknown { frames ≡ None → result.frames ≡ None }
{
    let line = effect.line();
    let frames = match frames {
        Some(n) => Some(frames_after(effect, line, n)),
        None => None,
    };
    EffectOutline {
        name: effect.name(),
        rate,
        hold: line + 1,
        bytes: bytes_held(effect, line, channels),
        late: lateness(effect, line),
        frames,
    }
}

/// The reports on effects, the first of which takes `rate` frames per second, of `channels` channels, and `frames` frames in
/// all, and the frames after them.
fn outlines_of(
    alloc: Global,
    effects: &[Effect],
    rate: u32,
    channels: usize,
    frames: Option<u64>,
) -> Result<(Vec<EffectOutline>, Option<u64>), AllocError>
    requires usable { All Usable (map act effects.now) }
    requires held { hold_all (map act effects.now) ≤ 2 ^ 28 }
    requires short { is_too_long (map act effects.now) ≡ false }
    requires bound { channels ≤ 16 }
    ensures stated { IfOk result (λ it. map stated it.0.items ≡ map known (map act effects.now)) }
    ensures rates { IfOk result (λ it. map stated_rate it.0.items ≡ rates_along rate (map act effects.now)) }
    ensures bytes { IfOk result (λ it. map stated_bytes it.0.items ≡ bytes_along channels (map act effects.now)) }
    ensures each { IfOk result (λ it. (sound : List Samples) → frames ≡ Some (length sound) → length sound ≤ 2 ^ 40
        → map stated_frames it.0.items ≡ map whole_frames (composed_wholes meaning_at (recipes_for channels (map act effects.now)) sound)) }
    ensures last { IfOk result (λ it. (sound : List Samples) → frames ≡ Some (length sound) → length sound ≤ 2 ^ 40
        → it.1 ≡ Some (length (composed meaning_at (recipes_for channels (map act effects.now)) sound))) }
    ensures unknown { IfOk result (λ it. frames ≡ None → All (λ outline. outline.frames ≡ None) it.0.items) }
    ensures end { IfOk result (λ it. frames ≡ None → it.1 ≡ None) }
{
    let mut outlines = Vec::new(alloc);
    let mut input_rate = rate;
    let mut inputs = channels;
    let mut left = frames;
    'effects: for effect in effects {
        let outline = outline_of_effect(effect, input_rate, inputs, left);
        outlines.push(outline)?;
        input_rate = rate_after(effect, input_rate);
        inputs = effect.channels_after(inputs);
        left = outline.frames;
    }
    Ok((outlines, left))
}

/// The bytes of the samples that a chain may hold: a frame before the first effect, and what each effect may hold.
fn bytes_of(outlines: &[EffectOutline], channels: usize) -> u64
    requires { 4 * channels + sum_by stated_bytes outlines.now < 2 ^ 64 }
    ensures { result ≡ 4 * channels + sum_by stated_bytes outlines.now }
{
    let mut bytes = 4 * channels as u64;
    for outline in outlines {
        bytes += outline.bytes;
    }
    bytes
}

/// The content of a plan; so many bytes of IN follow the end that its head announces.
fn outline_of(alloc: Global, plan: &Plan, beyond: Option<u64>) -> Result<Outline, AllocError>
    ensures planned { IfOk result (IsOutline (planning plan.now)) }
    ensures beyond { IfOk result (λ outline. outline.beyond ≡ beyond) }
{
    let head = plan.head();
    let input = input_of(&head);
    let (effects, frames) = outlines_of(
        alloc,
        plan.effects(),
        head.rate,
        head.channels,
        input.frames,
    )?;
    let bytes = bytes_of(&effects, head.channels);
    let output = SoundOutline {
        kind: plan.kind(),
        rate: plan.rate(),
        channels: plan.channels(),
        bits: bits_of(plan.coding()),
        frames,
    };
    Ok(Outline {
        input,
        size: size_in(&head),
        beyond,
        effects,
        hold: plan.hold(),
        bytes,
        output,
    })
}

/// The content of a plan, in this style. None where no memory is found for it.
pub fn text_of(alloc: Global, plan: &Plan, beyond: Option<u64>, style: Style) -> Option<Vec<u8>>
    ensures { IfSome result (λ text. (outline : Outline) × IsOutline (planning plan.now) outline
        × (outline.beyond ≡ beyond) × (text.items ≡ shown style outline)) }
{
    let outline = outline_of(alloc, plan, beyond).ok()?;
    let mut text = Vec::new(alloc);
    outline.show(&mut text, style).ok()?;
    Some(text)
}

/// Shows a number of frames in a human-readable line.
fn show_frames<W: Write>(writer: &mut W, frames: Option<u64>) -> io::Result<()>
    ensures { OnOk result (Appends (W.contents writer.old) (W.contents writer.new) (frames_text frames)) }
{
    match frames {
        Some(frames) => writeln!(writer, ", {frames} frames"),
        None => writeln!(writer, ", length not known"),
    }
}

/// Shows that the output has no frame, where it has none.
fn show_emptiness<W: Write>(writer: &mut W, frames: Option<u64>) -> io::Result<()>
    ensures { OnOk result (Appends (W.contents writer.old) (W.contents writer.new) (empty_line frames)) }
{
    match frames {
        Some(0) => writeln!(writer, "warning: the output has no frame"),
        _ => Ok(()),
    }
}

/// Shows in JSON whether the output has no frame.
fn show_json_emptiness<W: Write>(writer: &mut W, frames: Option<u64>) -> io::Result<()>
    ensures { OnOk result (Appends (W.contents writer.old) (W.contents writer.new) (empty_json frames)) }
{
    match frames {
        Some(0) => write!(writer, "true"),
        Some(_) => write!(writer, "false"),
        None => write!(writer, "null"),
    }
}

/// Shows that the head of a WAVE announces no bytes of sound, or none that are known.
fn show_size<W: Write>(writer: &mut W, kind: Kind, size: SizeInHead) -> io::Result<()>
    ensures { OnOk result (Appends (W.contents writer.old) (W.contents writer.new) (size_line kind size)) }
{
    match (kind, size) {
        (Kind::Wav, SizeInHead::Zero) => writeln!(
            writer,
            "warning: the head of IN announces 0 bytes of sound: soxchain reads none, whatever follows"
        ),
        (Kind::Wav, SizeInHead::Unknown) => writeln!(
            writer,
            "warning: the head of IN announces no size: soxchain reads to the end of the file, with whatever follows the sound"
        ),
        _ => Ok(()),
    }
}

/// Shows in JSON what the head says of the size of its sound.
fn show_json_size<W: Write>(writer: &mut W, size: SizeInHead) -> io::Result<()>
    ensures { OnOk result (Appends (W.contents writer.old) (W.contents writer.new) (size_json size)) }
{
    match size {
        SizeInHead::Zero => write!(writer, "\"zero\""),
        SizeInHead::Unknown => write!(writer, "\"unknown\""),
        SizeInHead::Known => write!(writer, "\"known\""),
    }
}

/// Shows that bytes of IN follow the end that its head announces, where some do.
fn show_beyond<W: Write>(writer: &mut W, beyond: Option<u64>) -> io::Result<()>
    ensures { OnOk result (Appends (W.contents writer.old) (W.contents writer.new) (beyond_line beyond)) }
{
    match beyond {
        None | Some(0) => Ok(()),
        Some(bytes) => writeln!(
            writer,
            "warning: {bytes} bytes of IN follow the end that its head announces: soxchain does not read them"
        ),
    }
}

/// Shows in JSON how many bytes of IN follow the end that its head announces.
fn show_json_beyond<W: Write>(writer: &mut W, beyond: Option<u64>) -> io::Result<()>
    ensures { OnOk result (Appends (W.contents writer.old) (W.contents writer.new) (beyond_json beyond)) }
{
    match beyond {
        Some(bytes) => write!(writer, "{bytes}"),
        None => write!(writer, "null"),
    }
}

/// Shows a number of frames in JSON.
fn show_json_frames<W: Write>(writer: &mut W, frames: Option<u64>) -> io::Result<()>
    ensures { OnOk result (Appends (W.contents writer.old) (W.contents writer.new) (frames_json frames)) }
{
    match frames {
        Some(frames) => write!(writer, "\"frames\": {frames}}}"),
        None => write!(writer, "\"frames\": null}}"),
    }
}

impl SoundOutline {
    /// A human-readable line.
    fn show<W: Write>(&self, writer: &mut W, title: &str) -> io::Result<()>
        ensures { OnOk result (Appends (W.contents writer.old) (W.contents writer.new) (sound_line title.now self.now)) }
    {
        let kind = name_of_kind(self.kind);
        let SoundOutline {
            rate,
            channels,
            bits,
            ..
        } = *self;
        write!(
            writer,
            "{title}: {kind}, {rate} frames a second, channels {channels}, {bits} bits"
        )?;
        show_frames(writer, self.frames)
    }

    /// A JSON object.
    fn show_json<W: Write>(&self, writer: &mut W) -> io::Result<()>
        ensures { OnOk result (Appends (W.contents writer.old) (W.contents writer.new) (sound_json self.now)) }
    {
        let kind = name_of_kind(self.kind);
        let SoundOutline {
            rate,
            channels,
            bits,
            ..
        } = *self;
        write!(
            writer,
            "{{\"kind\": \"{kind}\", \"rate\": {rate}, \"channels\": {channels}, \"bits\": {bits}, "
        )?;
        show_json_frames(writer, self.frames)
    }
}

impl EffectOutline {
    /// A human-readable line.
    fn show<W: Write>(&self, writer: &mut W, number: usize) -> io::Result<()>
        ensures { OnOk result (Appends (W.contents writer.old) (W.contents writer.new) (effect_line number self.now)) }
    {
        let EffectOutline {
            name,
            hold,
            bytes,
            late,
            ..
        } = *self;
        let milliseconds = in_milliseconds(late, self.rate);
        write!(
            writer,
            "effect {number} {name}: holds at most {hold} frames, {bytes} bytes; gives {late} frames late ({milliseconds} ms)"
        )?;
        show_frames(writer, self.frames)
    }

    /// A JSON object.
    fn show_json<W: Write>(&self, writer: &mut W) -> io::Result<()>
        ensures { OnOk result (Appends (W.contents writer.old) (W.contents writer.new) (effect_json self.now)) }
    {
        let EffectOutline {
            name,
            hold,
            bytes,
            late,
            ..
        } = *self;
        let milliseconds = in_milliseconds(late, self.rate);
        write!(
            writer,
            "{{\"name\": \"{name}\", \"hold\": {hold}, \"bytes\": {bytes}, \"late\": {late}, \"late_ms\": {milliseconds}, "
        )?;
        show_json_frames(writer, self.frames)
    }
}

/// Shows a human-readable line for each effect.
fn show_effects<W: Write>(writer: &mut W, effects: &[EffectOutline]) -> io::Result<()>
    ensures { OnOk result (Appends (W.contents writer.old) (W.contents writer.new) (effect_lines 1 effects.now)) }
{
    let mut number = 0usize;
    for effect in effects.iter() {
        number = number.saturating_add(1);
        effect.show(writer, number)?;
    }
    Ok(())
}

/// Shows effects as the elements of a JSON array.
fn show_json_effects<W: Write>(writer: &mut W, effects: &[EffectOutline]) -> io::Result<()>
    ensures { OnOk result (Appends (W.contents writer.old) (W.contents writer.new) (effects_json effects.now)) }
{
    let mut is_first = true;
    for effect in effects.iter() {
        if !is_first {
            write!(writer, ", ")?;
        }
        effect.show_json(writer)?;
        is_first = false;
    }
    Ok(())
}

impl Outline {
    /// Shows it in this style. After an `Err` the writer may have any prefix of it.
    fn show<W: Write>(&self, writer: &mut W, style: Style) -> io::Result<()>
        ensures { OnOk result (Appends (W.contents writer.old) (W.contents writer.new) (shown style self.now)) }
    {
        match style {
            Style::Text => self.show_text(writer),
            Style::Json => self.show_json(writer),
        }
    }

    /// Human-readable lines.
    fn show_text<W: Write>(&self, writer: &mut W) -> io::Result<()>
        ensures { OnOk result (Appends (W.contents writer.old) (W.contents writer.new) (outline_text self.now)) }
    {
        self.input.show(writer, "in")?;
        show_effects(writer, &self.effects)?;
        writeln!(
            writer,
            "chain: holds at most {} frames, {} bytes",
            self.hold, self.bytes
        )?;
        self.output.show(writer, "out")?;
        show_emptiness(writer, self.output.frames)?;
        show_size(writer, self.input.kind, self.size)?;
        show_beyond(writer, self.beyond)
    }

    /// One JSON object.
    fn show_json<W: Write>(&self, writer: &mut W) -> io::Result<()>
        ensures { OnOk result (Appends (W.contents writer.old) (W.contents writer.new) (outline_json self.now)) }
    {
        write!(writer, "{{\"in\": ")?;
        self.input.show_json(writer)?;
        write!(writer, ", \"effects\": [")?;
        show_json_effects(writer, &self.effects)?;
        write!(
            writer,
            "], \"hold\": {}, \"bytes\": {}, \"out\": ",
            self.hold, self.bytes
        )?;
        self.output.show_json(writer)?;
        write!(writer, ", \"empty\": ")?;
        show_json_emptiness(writer, self.output.frames)?;
        write!(writer, ", \"size_in_head\": ")?;
        show_json_size(writer, self.size)?;
        write!(writer, ", \"beyond_head\": ")?;
        show_json_beyond(writer, self.beyond)?;
        writeln!(writer, "}}")
    }
}
