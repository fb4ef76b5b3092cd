//! Static blocks and index signatures.

ghost use Rattle.class.specs.Forms.{block_d, index_d};
ghost use Rattle.class.specs.Reading.{Reads, ReadsIn};
ghost use Rattle.modifiers.specs.Lists.{entries};
ghost use Rattle.records.specs.Decorators.{spans_of};

use crate::decorating::{Before, note_decorators};
use crate::reading::Reading;
use crate::taking::{take, take_part};
use checks::class_check::ClassCheck;
use checks::class_checks::run_check;
use dialogue::Fatal;
use guard::change::Change;
use kinds::ModifierKind;
use kinds::context::Context;
use parts::Part;
use reader::TokenReader;
use records::Form;
use rules::Rule;
use script::ScriptReader;

impl<S: ScriptReader> Reading<'_, '_, S> {
    /// Reads an index signature.
    pub(crate) fn read_index(&mut self, context: Context, before: Before) -> Result<Form, Fatal>
        ensures { Reads S.TokenReader (index_d context.bits (entries before.modifiers) (spans_of before.decorators)) self.old self.new result }
    {
        note_decorators(
            Rule::DecoratorsNotValidHere,
            before.decorators,
            self.reports,
        );
        run_check(ClassCheck::IndexSignature, before.modifiers, self.reports);
        let rest = take_part(self.script, Part::IndexRest, context, self.reports)?;
        Ok(Form::IndexSignature {
            is_static: before.modifiers.contains(ModifierKind::Static),
            readonly: before.modifiers.contains(ModifierKind::Readonly),
            rest,
        })
    }

    /// Reads a static block from `static` on.
    pub(crate) fn read_block(
        &mut self,
        context: &mut Context,
        before: Before,
    ) -> Result<Form, Fatal>
        ensures { ReadsIn S.TokenReader (block_d context.old.bits (entries before.modifiers) (spans_of before.decorators)) self.old self.new context.old context.new result }
    {
        note_decorators(
            Rule::DecoratorsNotValidHere,
            before.decorators,
            self.reports,
        );
        run_check(ClassCheck::StaticBlock, before.modifiers, self.reports);
        take(self.script);
        let span = self.take_under(Part::Block, context, Change::StaticBlock)?;
        Ok(Form::StaticBlock(span))
    }
}
