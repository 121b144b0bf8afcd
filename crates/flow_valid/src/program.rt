// The classes of a program that keep the rules.

ghost use Rattle.std.specs.Prelude.{◌≡◌, IfOk};
ghost use Rattle.flow_class.specs.View.{raw_of};
ghost use Rattle.flow_valid.specs.Validity.{IsValid};

use crate::copying::copy_raw;
use flow_base::memory::NoMemory;
use flow_class::class::RawClasses;
use std::alloc::Global;
use std::marker::Model;

/// Records, functions and classes that keep the rules V1 to V8. Contracts see what they are made of.
#[derive(Drop)]
pub struct ClassProgram {
    raw: RawClasses,
}

impl Model for ClassProgram {
    ghost use Rattle.std.specs.Coded.{codes};
    ghost use Rattle.flow_tree.specs.contracts.ty.Ty as ty;
    ghost use Rattle.flow_tree.specs.contracts.expr.Expr as expr;
    ghost use Rattle.flow_tree.specs.contracts.stmt.Stmt as stmt;
    ghost use Rattle.flow_class.specs.declared.class.RawClasses.{RawClasses};
    ghost use Rattle.flow_class.specs.View.{raw_of};
    ghost use Rattle.flow_valid.specs.Validity.{IsValid};

    ghost Value = { RawClasses };

    ghost coded = { Prim.hlevel (codes, ty.the_row.coded, expr.the_row.coded, stmt.the_row.coded) };

    ghost view = { λ p. p.raw };

    ghost invariant = { λ p. IsValid (raw_of p.raw) };
}

impl ClassProgram {
    /// These records, functions and classes, which keep all rules. Nothing is tested: that they do is for the caller to
    /// know.
    pub fn new(raw: RawClasses) -> ClassProgram
        requires { IsValid (raw_of raw) }
        ensures { result ≡ raw }
    {
        ClassProgram { raw }
    }

    /// The records, functions and classes. They are valid.
    pub fn raw(&self) -> &RawClasses
        ensures raw { result.now ≡ self.now }
        ensures valid { IsValid (raw_of self.now) }
    {
        &self.raw
    }

    /// An equal program.
    pub fn copy(&self, alloc: Global) -> Result<ClassProgram, NoMemory>
        ensures { IfOk result (λ p. raw_of p ≡ raw_of self.now) }
    {
        Ok(ClassProgram {
            raw: copy_raw(alloc, &self.raw)?,
        })
    }
}
