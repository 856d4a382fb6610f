//! What `--help` shows.

/// The answer to `--help`.
pub const HELP: &str = "\
usage: soxchain-job [OPTION ..] [-D] [-t wav|au] IN [-D] [-t wav|au] [-b 8|16|24|32] OUT [EFFECT [WORD ..] ..]

Converts as soxchain does, from a file to a file, and survives a kill or a power cut: the same command continues.
The sound grows in OUT.part, with checkpoints in OUT.job. OUT is complete, or it is as before.

  --every SECONDS     the time between two checkpoints, 10 by default; converting never takes less time than they do
  --record FILE       the name of the record of the finished job, by default OUT.job.json
  --sha256            the record has the SHA-256 of both files too, beside their XXH64
  --progress WHEN     shows a line of progress on standard error: auto (on a terminal), always or never
  --status            shows the checkpoint of this job, and changes nothing; status 0 if it is of these words, else 1
  --abandon           removes OUT.part and OUT.job, so that the job begins anew
  --help              shows this text
  --version           shows the version

Status: 0 done, 1 the words are refused, 2 every other fault.
";
