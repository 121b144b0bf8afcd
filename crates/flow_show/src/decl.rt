// The texts of declarations.

ghost use Rattle.std.specs.Prelude.{◌≡◌, ◌++◌, codes, IfOk};
ghost use Rattle.flow_tree.specs.View.{type_of, result_of};
ghost use Rattle.flow_tree.specs.StmtView.{body_of};
ghost use Rattle.flow_tree.specs.DeclView.{params_of, record_of, function_of, actor_of, decl_of};
ghost use Rattle.flow_tree.specs.Decls.{StructDecl};
ghost use Rattle.flow_show.specs.Lines.{behind_result};
ghost use Rattle.flow_tree.specs.Canon.{type_text, fields_text, more_params_text, params_text, routine_text, actor_text, decl_text};

use crate::source::Source;
use flow_base::memory::NoMemory;
use flow_tree::decl::{ActorDecl, Decl, FunctionDecl, Param, RecordDecl};
use flow_tree::stmt::Stmt;
use flow_tree::ty::{Ident, Ty};

impl Source {
    fn put_fields(&mut self, fields: &[Param]) -> Result<(), NoMemory>
        ensures { IfOk result (λ _. self.new ≡ self.old ++ fields_text (params_of fields.now)) }
    {
        for field in fields {
            self.put(b"    ")?;
            self.put_named(&field.ty, &field.name)?;
            self.put(b";\n")?;
        }
        Ok(())
    }

    // Parameters behind another.
    fn put_more_params(&mut self, params: &[Param]) -> Result<(), NoMemory>
        ensures { IfOk result (λ _. self.new
            ≡ self.old ++ more_params_text (params_of params.now)) }
    {
        for param in params {
            self.put(b", ")?;
            self.put_named(&param.ty, &param.name)?;
        }
        Ok(())
    }

    fn put_params(&mut self, params: &[Param]) -> Result<(), NoMemory>
        ensures { IfOk result (λ _. self.new ≡ self.old ++ params_text (params_of params.now)) }
    {
        if let [first, rest @ ..] = params {
            self.put_named(&first.ty, &first.name)?;
            self.put_more_params(rest)?;
        }
        Ok(())
    }

    /// A record.
    pub fn put_record(&mut self, declared: &RecordDecl) -> Result<(), NoMemory>
        ensures { IfOk result (λ _. self.new
            ≡ self.old ++ decl_text (StructDecl (record_of declared.now))) }
    {
        self.put(b"struct ")?;
        self.put(declared.name.name.bytes())?;
        self.put(b" {\n")?;
        self.put_fields(&declared.fields)?;
        self.put(b"};\n")
    }

    // A function or an actor behind its result.
    fn put_routine(
        &mut self,
        name: &Ident,
        params: &Vec<Param>,
        body: &Vec<Stmt>,
    ) -> Result<(), NoMemory>
        ensures { IfOk result (λ _. self.new
            ≡ self.old ++ behind_result name.now (params_of params.now.items)
            (body_of body.now.items)) }
    {
        self.put(b" ")?;
        self.put(name.name.bytes())?;
        self.put(b"(")?;
        self.put_params(params)?;
        self.put(b") {\n")?;
        self.put_body(1, body)?;
        self.put(b"}\n")?;
        Ok(())
    }

    /// A plain function.
    pub fn put_function(&mut self, function: &FunctionDecl) -> Result<(), NoMemory>
        ensures { IfOk result (λ _. self.new
            ≡ self.old ++ routine_text (type_text (type_of function.now.returns))
            (function_of function.now)) }
    {
        self.put_type(&function.returns)?;
        self.put_routine(&function.name, &function.params, &function.body)?;
        Ok(())
    }

    // What stands before the name of an actor.
    #[tactic(auto, using(crate::proofs::DeclPieces::future_text))]
    fn put_actor_result(&mut self, gives: &Option<Ty>) -> Result<(), NoMemory>
        ensures { IfOk result (λ _. self.new ≡ self.old ++ actor_text (result_of gives.now)) }
    {
        match gives {
            Some(ty) => {
                self.put(b"ACTOR Future<")?;
                self.put_type(ty)?;
                self.put(b">")
            }
            None => self.put(b"ACTOR void"),
        }
    }

    fn put_actor(&mut self, actor: &ActorDecl) -> Result<(), NoMemory>
        ensures { IfOk result (λ _. self.new
            ≡ self.old ++ routine_text (actor_text (result_of actor.now.returns))
            (actor_of actor.now)) }
    {
        self.put_actor_result(&actor.returns)?;
        self.put_routine(&actor.name, &actor.params, &actor.body)?;
        Ok(())
    }

    /// A declaration.
    pub fn put_decl(&mut self, decl: &Decl) -> Result<(), NoMemory>
        ensures { IfOk result (λ _. self.new ≡ self.old ++ decl_text (decl_of decl.now)) }
    {
        match decl {
            Decl::Struct(record) => self.put_record(record),
            Decl::Function(function) => self.put_function(function),
            Decl::Actor(actor) => self.put_actor(actor),
        }
    }
}
