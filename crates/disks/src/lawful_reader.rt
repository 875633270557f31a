// The rules of a reader as laws, with no call at hand: theorems over whole runs, and readers made of readers, rest on them.
ghost use Rattle.disks.specs.Meaning.{ProperLaw, ReadLaw};

use crate::reader::Reader;

// A trait of its own, so that who implements `Reader` alone owes no more than the contracts of its calls.
pub trait LawfulReader: Reader {
    ghost proper: { ProperLaw Self.Reader.view Self.Reader.sound };

    ghost reading: { ReadLaw Self.Reader.view Self.Reader.sound Self.Reader.reads };
}
