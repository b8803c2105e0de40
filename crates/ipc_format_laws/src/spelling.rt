//! What is laid as FlatBuffers reads back: a theorem over all objects.
//!
//! `specs/Spelling.antt` says which bytes spell an object at a place, and `specs/Answers.antt` what each reader by address answers
//! there. `specs/Theorem.antt` says of which objects the bytes that are laid spell them.

ghost use Rattle.ipc_format_laws.specs.Theorem.{LaidReadsBack};
ghost use Rattle.ipc_format_laws.specs.Answers.{AbsentReads, NumbersRead, TruthsRead, TablesRead, ReferencesRead, ElementsRead};
ghost use Rattle.ipc_format_laws.specs.Answers.{TextsRead, EachRead, RootsRead, ContentsRead};

/// The bytes that are laid for an object spell it, whatever the object, where its numbers fit their widths, its texts are UTF-8,
/// its tables state their sizes in two bytes, and the message has less than 2^32 bytes (FlatBuffers, "Internals").
pub fn laid_reads_back()
    ensures { LaidReadsBack }
{}

/// Where bytes spell an object, whoever laid them, each reader by address answers what the object has.
pub fn spelled_reads()
    ensures absent { AbsentReads }
    ensures numbers { NumbersRead }
    ensures truths { TruthsRead }
    ensures tables { TablesRead }
    ensures references { ReferencesRead }
    ensures elements { ElementsRead }
    ensures texts { TextsRead }
    ensures each { EachRead }
    ensures roots { RootsRead }
    ensures contents { ContentsRead }
{}
