// The reader of a program after its dialect, between two tokens, and what a token makes of it.

ghost use Rattle.std.specs.Prelude.{◌≡◌, Ok, IfOk};
ghost use Rattle.snesl_grammar.specs.declared.lexer.token.TokenKind.TheVariants.{Semicolon};
ghost use Rattle.snesl_grammar.specs.tree.View.{tree_of};
ghost use Rattle.snesl_syntax.specs.expressions.Readers.{step};
ghost use Rattle.snesl_syntax.specs.expressions.Machine.{expressions};
ghost use Rattle.snesl_syntax.specs.expressions.Parsing.{state_of};
ghost use Rattle.snesl_grammar.specs.Limits.{greatest_depth};
ghost use Rattle.snesl_syntax.specs.declared.programs.Owner.TheVariants as owners;
ghost use Rattle.snesl_syntax.specs.declared.programs.ProgramPoint.TheVariants as points;
ghost use Rattle.snesl_syntax.specs.Programs.{body_move, body_end};
ghost use Rattle.snesl_syntax.specs.TypeMachine.{IsStep};
ghost use Rattle.snesl_syntax.specs.ProgramMachine.{rests, declarations_in, header_in, state_at, program_state, StepsBy, StepsAt, EndsType, IsThisRest};

use crate::expressions::{Machine, StepError};
use crate::types::TypeMachine;
use snesl_grammar::lexer::{Token, TokenKind};
use snesl_grammar::tree::{Declaration, Expr, Function, Span, Typing, WrittenType};
use std::alloc::{AllocError, Global};

/// What a type is of.
#[derive(Drop)]
pub enum Owner {
    Input {
        name: Span,
    },
    Parameter {
        function: Span,
        given: Vec<Typing>,
        name: Span,
    },
    Result {
        function: Span,
        parameters: Vec<Typing>,
    },
}

/// A function before its body.
#[derive(Drop)]
pub struct Header {
    pub name: Span,
    pub parameters: Vec<Typing>,
    pub result: WrittenType,
}

/// What may come next.
#[derive(Drop)]
pub enum ProgramPoint {
    /// A declaration or the expression.
    Between,
    /// The name of an input.
    Input,
    /// The colon after it.
    InputColon {
        name: Span,
    },
    /// The name of a function.
    Function,
    /// The parenthesis after it.
    Open {
        function: Span,
    },
    /// The name of the next parameter.
    Parameter {
        function: Span,
        given: Vec<Typing>,
    },
    /// The colon after it.
    ParameterColon {
        function: Span,
        given: Vec<Typing>,
        name: Span,
    },
    /// The colon after the parameters.
    ResultColon {
        function: Span,
        parameters: Vec<Typing>,
    },
    /// The rest of a type.
    Type {
        owner: Owner,
        machine: TypeMachine,
    },
    /// The rest of the body of a function.
    Body {
        header: Header,
        machine: Machine,
    },
    /// The rest of the expression.
    Final(Machine),
}

/// The reader of a program after its dialect, between two tokens, with the declarations that are
/// whole.
#[derive(Drop)]
pub struct ProgramMachine {
    done: Vec<Declaration>,
    point: ProgramPoint,
}

/// The parts of a program after its dialect.
#[derive(Drop)]
pub struct Parsed {
    pub declarations: Vec<Declaration>,
    pub expr: Expr,
}

// Goes on at a point.
fn at_point(done: Vec<Declaration>, point: ProgramPoint) -> Result<ProgramMachine, StepError>
    ensures { IsStep program_state result (Ok (state_at (declarations_in done) point)) }
{
    Ok(ProgramMachine { done, point })
}

// Where a declaration or the expression begins.
fn between(alloc: Global, done: Vec<Declaration>, token: Token) -> Result<ProgramMachine, StepError>
    ensures { StepsAt result done points.Between token }
{
    match token.kind {
        TokenKind::Input => at_point(done, ProgramPoint::Input),
        TokenKind::Function => at_point(done, ProgramPoint::Function),
        _ => in_final(alloc, done, Machine::new(alloc), token),
    }
}

// In the expression.
fn in_final(
    alloc: Global,
    done: Vec<Declaration>,
    machine: Machine,
    token: Token,
) -> Result<ProgramMachine, StepError>
    ensures { StepsAt result done (points.Final machine) token }
{
    let machine = machine.step(alloc, token)?;
    at_point(done, ProgramPoint::Final(machine))
}

// Where the name of an input stands.
fn input_name(done: Vec<Declaration>, token: Token) -> Result<ProgramMachine, StepError>
    ensures { StepsAt result done points.Input token }
{
    match token.kind {
        TokenKind::Name(len) => {
            let name = Span { at: token.at, len };
            at_point(done, ProgramPoint::InputColon { name })
        }
        _ => Err(StepError::Unexpected),
    }
}

// After the name of an input.
fn input_colon(
    alloc: Global,
    done: Vec<Declaration>,
    name: Span,
    token: Token,
) -> Result<ProgramMachine, StepError>
    ensures { StepsAt result done (points.InputColon name) token }
{
    match token.kind {
        TokenKind::Colon => {
            let machine = TypeMachine::new(alloc);
            let owner = Owner::Input { name };
            at_point(done, ProgramPoint::Type { owner, machine })
        }
        _ => Err(StepError::Unexpected),
    }
}

// Where the name of a function stands.
fn function_name(done: Vec<Declaration>, token: Token) -> Result<ProgramMachine, StepError>
    ensures { StepsAt result done points.Function token }
{
    match token.kind {
        TokenKind::Name(len) => {
            let function = Span { at: token.at, len };
            at_point(done, ProgramPoint::Open { function })
        }
        _ => Err(StepError::Unexpected),
    }
}

// After the name of a function.
fn open(
    alloc: Global,
    done: Vec<Declaration>,
    function: Span,
    token: Token,
) -> Result<ProgramMachine, StepError>
    ensures { StepsAt result done (points.Open function) token }
{
    match token.kind {
        TokenKind::LeftParen => {
            let given = Vec::new(alloc);
            at_point(done, ProgramPoint::Parameter { function, given })
        }
        _ => Err(StepError::Unexpected),
    }
}

// Where the name of a parameter stands.
fn parameter_name(
    done: Vec<Declaration>,
    function: Span,
    given: Vec<Typing>,
    token: Token,
) -> Result<ProgramMachine, StepError>
    ensures { StepsAt result done (points.Parameter function given) token }
{
    match token.kind {
        TokenKind::Name(len) => {
            let name = Span { at: token.at, len };
            at_point(
                done,
                ProgramPoint::ParameterColon {
                    function,
                    given,
                    name,
                },
            )
        }
        _ => Err(StepError::Unexpected),
    }
}

// After the name of a parameter.
fn parameter_colon(
    alloc: Global,
    done: Vec<Declaration>,
    function: Span,
    given: Vec<Typing>,
    name: Span,
    token: Token,
) -> Result<ProgramMachine, StepError>
    ensures { StepsAt result done (points.ParameterColon function given name) token }
{
    match token.kind {
        TokenKind::Colon => {
            let machine = TypeMachine::new(alloc);
            let owner = Owner::Parameter {
                function,
                given,
                name,
            };
            at_point(done, ProgramPoint::Type { owner, machine })
        }
        _ => Err(StepError::Unexpected),
    }
}

// After the parameters of a function.
fn result_colon(
    alloc: Global,
    done: Vec<Declaration>,
    function: Span,
    parameters: Vec<Typing>,
    token: Token,
) -> Result<ProgramMachine, StepError>
    ensures { StepsAt result done (points.ResultColon function parameters) token }
{
    match token.kind {
        TokenKind::Colon => {
            let machine = TypeMachine::new(alloc);
            let owner = Owner::Result {
                function,
                parameters,
            };
            at_point(done, ProgramPoint::Type { owner, machine })
        }
        _ => Err(StepError::Unexpected),
    }
}

// After the type of an input.
fn input_end(
    mut done: Vec<Declaration>,
    name: Span,
    ty: WrittenType,
    kind: TokenKind,
) -> Result<ProgramMachine, StepError>
    ensures { EndsType result done (owners.Input name) ty kind }
{
    match kind {
        TokenKind::Semicolon => {
            done.push(Declaration::Input(Typing { name, ty }))?;
            at_point(done, ProgramPoint::Between)
        }
        _ => Err(StepError::Unexpected),
    }
}

// After the type of a parameter.
fn parameter_end(
    done: Vec<Declaration>,
    function: Span,
    mut given: Vec<Typing>,
    parameter: Typing,
    kind: TokenKind,
) -> Result<ProgramMachine, StepError>
    ensures { EndsType result done
        (owners.Parameter function given parameter.name) parameter.ty kind }
{
    match kind {
        TokenKind::Comma => {
            given.push(parameter)?;
            at_point(done, ProgramPoint::Parameter { function, given })
        }
        TokenKind::RightParen => {
            given.push(parameter)?;
            let parameters = given;
            at_point(
                done,
                ProgramPoint::ResultColon {
                    function,
                    parameters,
                },
            )
        }
        _ => Err(StepError::Unexpected),
    }
}

// After the type of a result.
fn result_end(
    alloc: Global,
    done: Vec<Declaration>,
    header: Header,
    kind: TokenKind,
) -> Result<ProgramMachine, StepError>
    ensures { EndsType result done
        (owners.Result header.name header.parameters) header.result kind }
{
    match kind {
        TokenKind::Equals => {
            let machine = Machine::new(alloc);
            at_point(done, ProgramPoint::Body { header, machine })
        }
        _ => Err(StepError::Unexpected),
    }
}

// After a type.
fn type_ended(
    alloc: Global,
    done: Vec<Declaration>,
    owner: Owner,
    ty: WrittenType,
    kind: TokenKind,
) -> Result<ProgramMachine, StepError>
    ensures { EndsType result done owner ty kind }
{
    match owner {
        Owner::Input { name } => input_end(done, name, ty, kind),
        Owner::Parameter {
            function,
            given,
            name,
        } => parameter_end(done, function, given, Typing { name, ty }, kind),
        Owner::Result {
            function,
            parameters,
        } => {
            let header = Header {
                name: function,
                parameters,
                result: ty,
            };
            result_end(alloc, done, header, kind)
        }
    }
}

// In a type, or after it.
fn in_type(
    alloc: Global,
    done: Vec<Declaration>,
    owner: Owner,
    machine: TypeMachine,
    token: Token,
) -> Result<ProgramMachine, StepError>
    ensures { StepsAt result done (points.Type owner machine) token }
{
    match machine.into_whole() {
        Ok(ty) => type_ended(alloc, done, owner, ty, token.kind),
        Err(machine) => {
            let machine = machine.step(alloc, token)?;
            at_point(done, ProgramPoint::Type { owner, machine })
        }
    }
}

// Where the body of a function goes on.
fn body_step(
    alloc: Global,
    done: Vec<Declaration>,
    header: Header,
    machine: Machine,
    token: Token,
) -> Result<ProgramMachine, StepError>
    ensures { StepsBy result
        (body_move expressions (header_in done header) (state_of machine) token) }
{
    let machine = machine.step(alloc, token)?;
    at_point(done, ProgramPoint::Body { header, machine })
}

// Takes a function with its body.
fn function_ended(
    mut done: Vec<Declaration>,
    header: Header,
    body: Expr,
) -> Result<ProgramMachine, StepError>
    ensures { StepsBy result (body_end (header_in done header) Semicolon (tree_of body)) }
{
    let Header {
        name,
        parameters,
        result,
    } = header;
    done.push(Declaration::Function(Function {
        name,
        parameters,
        result,
        body,
    }))?;
    at_point(done, ProgramPoint::Between)
}

// In the body of a function, or after it.
fn in_body(
    alloc: Global,
    done: Vec<Declaration>,
    header: Header,
    machine: Machine,
    token: Token,
) -> Result<ProgramMachine, StepError>
    ensures { StepsAt result done (points.Body header machine) token }
{
    match token.kind {
        TokenKind::Semicolon => {
            if !machine.is_whole() {
                return body_step(alloc, done, header, machine, token);
            }
            match machine.finish(alloc)? {
                Some(body) => function_ended(done, header, body),
                None => Err(StepError::Unexpected),
            }
        }
        _ => body_step(alloc, done, header, machine, token),
    }
}

impl ProgramMachine {
    /// The machine before the first token.
    pub fn new(alloc: Global) -> ProgramMachine
        ensures { program_state result ≡ rests.start }
    {
        ProgramMachine {
            done: Vec::new(alloc),
            point: ProgramPoint::Between,
        }
    }

    /// The machine after the next token.
    pub fn step(self, alloc: Global, token: Token) -> Result<ProgramMachine, StepError>
        ensures { IsStep program_state result
            (step rests greatest_depth (program_state self) token) }
    {
        let ProgramMachine { done, point } = self;
        match point {
            ProgramPoint::Between => between(alloc, done, token),
            ProgramPoint::Input => input_name(done, token),
            ProgramPoint::InputColon { name } => input_colon(alloc, done, name, token),
            ProgramPoint::Function => function_name(done, token),
            ProgramPoint::Open { function } => open(alloc, done, function, token),
            ProgramPoint::Parameter { function, given } => {
                parameter_name(done, function, given, token)
            }
            ProgramPoint::ParameterColon {
                function,
                given,
                name,
            } => parameter_colon(alloc, done, function, given, name, token),
            ProgramPoint::ResultColon {
                function,
                parameters,
            } => result_colon(alloc, done, function, parameters, token),
            ProgramPoint::Type { owner, machine } => in_type(alloc, done, owner, machine, token),
            ProgramPoint::Body { header, machine } => in_body(alloc, done, header, machine, token),
            ProgramPoint::Final(machine) => in_final(alloc, done, machine, token),
        }
    }

    /// The parts that the tokens so far are, where they are a program's.
    pub fn finish(self, alloc: Global) -> Result<Option<Parsed>, AllocError>
        ensures { IfOk result (λ found. IsThisRest found (rests.finished (program_state self))) }
    {
        let ProgramMachine { done, point } = self;
        match point {
            ProgramPoint::Final(machine) => match machine.finish(alloc)? {
                Some(expr) => Ok(Some(Parsed {
                    declarations: done,
                    expr,
                })),
                None => Ok(None),
            },
            _ => {
                let_go(point);
                Ok(None)
            }
        }
    }
}

// Lets a value go. The drop of a point, written out in a function that takes one apart, is most of what its proof
// goes through; here it is one call.
fn let_go<T: Drop>(_: T) {}
