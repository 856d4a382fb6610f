//! The record of a finished job, as JSON.

use crate::digests::{Digests, FileDigest};
use byteorder::{ByteOrder, LittleEndian};
use fx_chain::Report;
use fx_frame::Coding;
use fx_plan::Plan;
use fx_sound::Kind;
use hex::encode;
use jiff::Timestamp;
use serde_json::{Map, Value};
use soxchain_common::VERSION;
use soxchain_job_file::Runs;
use std::alloc::{AllocError, Global};
use std::time::{SystemTime, UNIX_EPOCH};

/// What a record says of a sound, beside its frames and its digest.
#[derive(Clone, Copy, Debug, Drop)]
pub struct SoundFormat {
    pub kind: Kind,
    pub rate: u32,
    pub channels: usize,
    pub coding: Coding,
}

/// What a record says of a job before it runs.
#[derive(Drop)]
pub struct RecordBase {
    pub words: Vec<String>,
    pub input: SoundFormat,
    pub output: SoundFormat,
    /// The names of the effects.
    pub effects: Vec<&'static str>,
    /// The frames that the chain may hold.
    pub hold: u64,
    /// Whether it is to have the SHA-256 of both files.
    pub has_sha256: bool,
}

/// The version of the form of a record.
const RECORD_VERSION: u64 = 2;

/// Members of a JSON object.
type Members = Map<String, Value>;

/// The seconds since 1970; 0 where the clock is before that.
pub fn seconds_now(rt: &HostRuntime) -> u64 {
    match SystemTime::now(rt) {
        Ok(now) => now
            .duration_since(UNIX_EPOCH)
            .map_or(0, |since| since.as_secs()),
        Err(_) => 0,
    }
}

/// Adds a member.
fn add(alloc: Global, members: &mut Members, name: &str, value: Value) -> Result<(), AllocError> {
    members.insert(String::from_str(alloc, name)?, value)?;
    Ok(())
}

/// Adds a number.
fn add_number(
    alloc: Global,
    members: &mut Members,
    name: &str,
    number: u64,
) -> Result<(), AllocError> {
    add(alloc, members, name, Value::from(number))
}

/// Adds a text.
fn add_text(
    alloc: Global,
    members: &mut Members,
    name: &str,
    text: &str,
) -> Result<(), AllocError> {
    add(alloc, members, name, Value::try_from_str(alloc, text)?)
}

/// Texts as JSON.
fn list_of(alloc: Global, texts: &[String]) -> Result<Value, AllocError> {
    let mut list = Vec::new(alloc);
    for text in texts {
        list.push(Value::try_from_str(alloc, text.as_str())?)?;
    }
    Ok(Value::Array(list))
}

impl RecordBase {
    /// That of a plan.
    pub fn of(
        alloc: Global,
        words: &[String],
        plan: &Plan,
        has_sha256: bool,
    ) -> Result<RecordBase, AllocError> {
        let mut texts = Vec::new(alloc);
        for word in words {
            texts.push(word.clone()?)?;
        }
        let mut effects = Vec::new(alloc);
        for effect in plan.effects() {
            effects.push(effect.name())?;
        }
        let head = plan.head();
        Ok(RecordBase {
            words: texts,
            input: SoundFormat {
                kind: head.kind,
                rate: head.rate,
                channels: head.channels,
                coding: head.coding,
            },
            output: SoundFormat {
                kind: plan.kind(),
                rate: plan.rate(),
                channels: plan.channels(),
                coding: plan.coding(),
            },
            effects,
            hold: plan.hold(),
            has_sha256,
        })
    }

    /// The clips of each effect.
    fn clips(&self, alloc: Global, report: &Report) -> Result<Value, AllocError> {
        let mut list = Vec::new(alloc);
        for (effect, samples) in self.effects.iter().zip(report.clips.iter()) {
            let mut clips = Map::new(alloc);
            add_text(alloc, &mut clips, "effect", effect)?;
            add_number(alloc, &mut clips, "samples", *samples)?;
            list.push(Value::Object(clips))?;
        }
        Ok(Value::Array(list))
    }

    /// Adds what the job was: its words, the programs' versions, its runs and times.
    fn add_job(
        &self,
        alloc: Global,
        members: &mut Members,
        runs: Runs,
        ended: u64,
    ) -> Result<(), AllocError> {
        add_number(alloc, members, "soxchain-job", RECORD_VERSION)?;
        let version = VERSION.lines().next().unwrap_or("");
        add_text(alloc, members, "version", version)?;
        add(alloc, members, "words", list_of(alloc, &self.words)?)?;
        add_number(alloc, members, "runs", runs.count)?;
        let began = time_text(alloc, runs.began)?;
        add_text(alloc, members, "began", began.as_str())?;
        let ended = time_text(alloc, ended)?;
        add_text(alloc, members, "ended", ended.as_str())
    }

    /// Adds what the conversion counted.
    fn add_counts(
        &self,
        alloc: Global,
        members: &mut Members,
        report: &Report,
    ) -> Result<(), AllocError> {
        add_number(alloc, members, "hold", self.hold)?;
        add(alloc, members, "clips", self.clips(alloc, report)?)?;
        add_number(alloc, members, "output_clips", report.out_clips)?;
        add_number(alloc, members, "missing", report.missing)?;
        add_number(alloc, members, "stray", report.stray)
    }

    /// The record of a job that ended at this second, from the counts of its conversion and the digests of both files.
    pub fn finished(
        &self,
        alloc: Global,
        counts: &[u8],
        digests: &Digests,
        runs: Runs,
        ended: u64,
    ) -> Result<Vec<u8>, AllocError> {
        let report = report_of(counts);
        let has_sha256 = self.has_sha256;
        let mut members = Map::new(alloc);
        self.add_job(alloc, &mut members, runs, ended)?;
        self.add_counts(alloc, &mut members, &report)?;
        let input = self
            .input
            .to_json(alloc, report.frames_in, &digests.input, has_sha256)?;
        add(alloc, &mut members, "input", input)?;
        let output = self
            .output
            .to_json(alloc, report.frames_out, &digests.output, has_sha256)?;
        add(alloc, &mut members, "output", output)?;
        let mut text = Value::Object(members).to_string_pretty(alloc)?;
        text.push('\n')?;
        Ok(text.into_bytes())
    }
}

impl SoundFormat {
    /// A sound of this format with so many frames, and what its file is known by.
    fn to_json(
        self,
        alloc: Global,
        frames: u64,
        digest: &FileDigest,
        has_sha256: bool,
    ) -> Result<Value, AllocError> {
        let mut members = Map::new(alloc);
        add_text(alloc, &mut members, "kind", kind_name(self.kind))?;
        add_number(alloc, &mut members, "rate", u64::from(self.rate))?;
        add_number(alloc, &mut members, "channels", self.channels as u64)?;
        let bits = 8 * self.coding.width() as u64;
        add_number(alloc, &mut members, "bits", bits)?;
        add_number(alloc, &mut members, "frames", frames)?;
        add_number(alloc, &mut members, "bytes", digest.size)?;
        let xxh64 = encode(alloc, digest.xxh64.to_be_bytes())?;
        add_text(alloc, &mut members, "xxh64", xxh64.as_str())?;
        if has_sha256 {
            let sha256 = encode(alloc, digest.sha256)?;
            add_text(alloc, &mut members, "sha256", sha256.as_str())?;
        }
        Ok(Value::Object(members))
    }
}

/// The word of 64 bits at this place; 0 where there is none.
fn word_at(words: &[u8], place: usize) -> u64 {
    match words.chunks_exact(8).nth(place) {
        Some(word) => LittleEndian::read_u64(word),
        None => 0,
    }
}

/// The report that a conversion's summary gives: words of 64 bits, little-endian.
pub fn report_of(summary: &[u8]) -> Report {
    let mut report = Report::none();
    report.frames_in = word_at(summary, 0);
    report.frames_out = word_at(summary, 1);
    report.missing = word_at(summary, 2);
    report.stray = word_at(summary, 3);
    report.out_clips = word_at(summary, 4);
    for (place, clips) in report.clips.iter_mut().enumerate() {
        *clips = word_at(summary, 5 + place);
    }
    report
}

/// The name of a kind, as `-t` takes it.
fn kind_name(kind: Kind) -> &'static str {
    match kind {
        Kind::Wav => "wav",
        Kind::Au => "au",
    }
}

/// A second since 1970 as a date and time of UTC.
pub fn time_text(alloc: Global, second: u64) -> Result<String, AllocError> {
    let second = i64::try_from(second).unwrap_or(0);
    let time = Timestamp::from_second(second).unwrap_or(Timestamp::UNIX_EPOCH);
    format!(in alloc; "{time}")
}
