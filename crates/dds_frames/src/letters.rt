//! Reading the fields of a letter.

ghost use Rattle.std.specs.Prelude.{◌≡◌};
ghost use Rattle.dds_frames.specs.Reading.{ReadsAs};
ghost use Rattle.dds_frames.specs.Fields.{get_at, prepare_at, map_ask_at, copy_ask_at, copy_part_at, letter_at};

use crate::fault::FieldFault;
use crate::fields::Fields;
use crate::tag::Tag;
use dds_letters::letter::Letter;
use std::alloc::Global;

impl<'a> Fields<'a> {
    #[tactic(auto, unfolding(crate::specs::Fields::get_at))]
    fn get(&mut self) -> Result<Letter, FieldFault>
        ensures { ReadsAs result self.new (get_at self.old) }
    {
        Ok(Letter::Get {
            txn: self.txn()?,
            caller: self.caller()?,
            call: self.call()?,
            key: self.number_8()?,
            name: self.name()?,
            stamp: self.stamp()?,
        })
    }

    #[tactic(auto, unfolding(crate::specs::Fields::prepare_at))]
    fn prepare(&mut self, alloc: Global) -> Result<Letter, FieldFault>
        ensures { ReadsAs result self.new (prepare_at self.old) }
    {
        Ok(Letter::Prepare {
            txn: self.txn()?,
            caller: self.caller()?,
            call: self.call()?,
            below: self.number_8()?,
            name: self.name()?,
            stamp: self.stamp()?,
            list: self.group()?,
            op: self.update(alloc)?,
        })
    }

    #[tactic(auto, unfolding(crate::specs::Fields::map_ask_at))]
    fn map_ask(&mut self) -> Result<Letter, FieldFault>
        ensures { ReadsAs result self.new (map_ask_at self.old) }
    {
        Ok(Letter::MapAsk {
            txn: self.txn()?,
            caller: self.caller()?,
            call: self.call()?,
            key: self.number_8()?,
        })
    }

    #[tactic(auto, unfolding(crate::specs::Fields::copy_ask_at))]
    fn copy_ask(&mut self) -> Result<Letter, FieldFault>
        ensures { ReadsAs result self.new (copy_ask_at self.old) }
    {
        Ok(Letter::CopyAsk {
            order: self.number_8()?,
            name: self.name()?,
            after: self.after()?,
        })
    }

    #[tactic(auto, unfolding(crate::specs::Fields::copy_part_at))]
    fn copy_part(&mut self, alloc: Global) -> Result<Letter, FieldFault>
        ensures { ReadsAs result self.new (copy_part_at self.old) }
    {
        Ok(Letter::CopyPart {
            order: self.number_8()?,
            last: self.flag()?,
            pairs: self.pairs(alloc)?,
        })
    }

    /// The fields of a letter of this kind.
    pub(crate) fn letter(&mut self, alloc: Global, tag: Tag) -> Result<Letter, FieldFault>
        ensures { ReadsAs result self.new (letter_at tag self.old) }
    {
        match tag {
            Tag::Get => self.get(),
            Tag::Prepare => self.prepare(alloc),
            Tag::Commit => Ok(Letter::Commit { txn: self.txn()? }),
            Tag::Abort => Ok(Letter::Abort { txn: self.txn()? }),
            Tag::Push => Ok(Letter::Push { leaf: self.leaf()? }),
            Tag::MapAsk => self.map_ask(),
            Tag::Got => Ok(Letter::Got {
                txn: self.txn()?,
                answer: self.answer(alloc)?,
            }),
            Tag::Vote => Ok(Letter::Vote {
                txn: self.txn()?,
                vote: self.ballot()?,
            }),
            Tag::Applied => Ok(Letter::Applied {
                txn: self.txn()?,
                was: self.flag()?,
            }),
            Tag::Aborted => Ok(Letter::Aborted { txn: self.txn()? }),
            Tag::MapTell => Ok(Letter::MapTell {
                txn: self.txn()?,
                leaf: self.maybe_leaf()?,
            }),
            Tag::Help => Ok(Letter::Help {
                txn: self.txn()?,
                list: self.group()?,
            }),
            Tag::Query => Ok(Letter::Query {
                txn: self.txn()?,
                list: self.group()?,
            }),
            Tag::Status => Ok(Letter::Status {
                txn: self.txn()?,
                status: self.status()?,
            }),
            Tag::Outcome => Ok(Letter::Outcome {
                txn: self.txn()?,
                commit: self.flag()?,
            }),
            Tag::Lease => Ok(Letter::Lease {
                order: self.number_8()?,
                what: self.wanted()?,
            }),
            Tag::Granted => Ok(Letter::Granted {
                order: self.number_8()?,
                leaf: self.leaf()?,
            }),
            Tag::LeaseRefused => Ok(Letter::LeaseRefused {
                order: self.number_8()?,
                refusal: self.refusal()?,
            }),
            Tag::Release => Ok(Letter::Release {
                order: self.number_8()?,
                name: self.name()?,
            }),
            Tag::CopyAsk => self.copy_ask(),
            Tag::CopyPart => self.copy_part(alloc),
            Tag::Install => Ok(Letter::Install {
                order: self.number_8()?,
                leaf: self.leaf()?,
            }),
            Tag::Installed => Ok(Letter::Installed {
                order: self.number_8()?,
                name: self.name()?,
            }),
            Tag::Notice => Ok(Letter::Notice),
        }
    }
}
