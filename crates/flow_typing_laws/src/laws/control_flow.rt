// Laws of walks.

ghost use Rattle.std.specs.Prelude.{List};
ghost use Rattle.flow_tree.specs.Body.{Body};
ghost use Rattle.flow_tree.specs.Decls.{DeclTree, ProgramTree};
ghost use Rattle.flow_tree.specs.declared.token.Tokens.{Tokens};
ghost use Rattle.flow_tree.specs.GrammarDecl.{IsProgram};
ghost use Rattle.flow_typing_laws.specs.ControlFlow.Laws.{EndsByWalk, LostByWalk, AllHaveSimpleParts};
ghost use Rattle.flow_typing_laws.specs.ControlFlow.Graph.{Edge, IsExact};

/// A set of points that is grown along edges from some points, until nothing is added, holds exactly the points to which
/// some walk leads from these.
pub fn growth_equals_reachability<P>()
    ensures { (edges : List (Edge P)) (begins reached : List P) → IsExact edges begins reached }
{}

/// A body whose parts of a `for` are as the grammar has them is left by its end, as the rule on closing braces tests it by
/// structure, exactly where some walk of its control graph leads from its opening brace to its closing one.
pub fn closing_rule_agrees_with_walks()
    ensures { (b : Body) → EndsByWalk b }
{}

/// The use that the rule on state tells of declarations, by what is known at each point, is the first in the order of the
/// text that is bad by walks, with its declaration and the first wait by which it is bad; it tells none where there is none.
pub fn state_rule_agrees_with_walks()
    ensures { (decls : List DeclTree) → LostByWalk decls }
{}

/// What the grammar derives has parts of its `for`s as the laws above ask: its init declares or changes a variable, and its
/// step changes one, where they are there.
pub fn grammar_keeps_for_parts_simple()
    ensures { (tokens : Tokens) (program : ProgramTree) → IsProgram tokens program
        → AllHaveSimpleParts program.decls }
{}
