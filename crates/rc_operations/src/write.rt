// Commands as requests.
ghost use Rattle.std.specs.Prelude.{◌≡◌, ◌∷◌, ◌++◌, [], ℕ, List, length, ◌↔◌, IsTrue, Ok, IfOk, OnOk};
ghost use Rattle.http_header.specs.HeaderMap.{append, append_all};
ghost use Rattle.http_header.specs.FieldValue.{plain_value};
ghost use Rattle.json_codec.specs.Bodies.{command_of};
ghost use Rattle.json_codec.specs.CommandRead.{operation_of};
ghost use Rattle.rc_http.specs.declared.message.Kind.TheVariants.{Request};
ghost use Rattle.rc_http.specs.Heads.{fields_map, lowered};
ghost use Rattle.rc_http.specs.Looks.{Gives, Looks};
ghost use Rattle.rc_http.specs.Written.{request_again, request_text};
ghost use Rattle.rc_resource.specs.Messages.{length_field, request_fields, type_field};
ghost use Rattle.rc_operations.specs.Operations.{command_body, command_message, command_target, controller_host, requested, IsSendable, IsSound};

use http_header::{CONTENT_LENGTH, CONTENT_TYPE, HOST, HeaderMap, HeaderName, HeaderValue};
use ikeless_tree::Command;
use ikl_base::{NoMemory, Octets};
use json_codec::write_command;
use rc_http::{HttpMessage, write_request};
use std::alloc::Global;
use yang_values::write_u64;

type Fields = HeaderMap<HeaderValue>;

const MOST_BODY: usize = 1_048_576;

fn put(alloc: Global, fields: &mut Fields, name: HeaderName, value: &[u8]) -> Result<(), NoMemory>
    ensures { OnOk result (fields.new ≡ append fields.old name (plain_value value.now)) }
{
    let Ok(value) = HeaderValue::from_bytes(alloc, value) else {
        return Err(NoMemory);
    };
    match fields.append(name, value) {
        Ok(_) => Ok(()),
        Err(_) => Err(NoMemory),
    }
}

fn put_type(alloc: Global, fields: &mut Fields) -> Result<(), NoMemory>
    ensures { OnOk result (fields.new ≡ append_all fields.old (lowered type_field ∷ [])) }
{
    put(alloc, fields, CONTENT_TYPE, b"application/yang-data+json")
}

fn put_length(alloc: Global, fields: &mut Fields, body: &[u8]) -> Result<(), NoMemory>
    ensures { OnOk result (fields.new ≡ append_all fields.old (lowered (length_field body.now) ∷ [])) }
{
    let digits = write_u64(alloc, body.len() as u64)?;
    put(alloc, fields, CONTENT_LENGTH, digits.as_slice())
}

fn fields_for(alloc: Global, body: &[u8]) -> Result<Fields, NoMemory>
    ensures { IfOk result (λ fields. fields ≡ fields_map (request_fields controller_host body.now)) }
{
    let mut fields = HeaderMap::new(alloc);
    put(alloc, &mut fields, HOST, b"127.0.0.1")?;
    if body.is_empty() {
        return Ok(fields);
    }
    put_type(alloc, &mut fields)?;
    put_length(alloc, &mut fields, body)?;
    Ok(fields)
}

fn target_of(c: &Command) -> &'static [u8]
    ensures { result.now ≡ command_target c.now }
{
    match c {
        Command::Policy { .. } => b"/restconf/operations/ikl-control:policy",
        Command::Tunnel(_) => b"/restconf/operations/ikl-control:tunnel",
        Command::End(_) => b"/restconf/operations/ikl-control:end",
        Command::Rekey(_) => b"/restconf/operations/ikl-control:rekey",
        Command::Keys(_) => b"/restconf/operations/ikl-control:keys",
    }
}

fn request_of(alloc: Global, c: &Command) -> Result<HttpMessage, NoMemory>
    requires { IsSendable c.now }
    ensures message { IfOk result (λ m. m ≡ command_message c.now) }
    ensures reads { IfOk result (λ m. command_of (operation_of c.now) (command_body c.now) ≡ Ok c.now) }
{
    let body = write_command(alloc, c)?;
    let fields = fields_for(alloc, body.as_slice())?;
    Ok(HttpMessage {
        method: Octets::from_slice(alloc, b"POST")?,
        target: Octets::from_slice(alloc, target_of(c))?,
        status: 0,
        fields,
        body,
    })
}

/// Whether the body of a command's request is within its limit of 1 MiB.
pub fn can_be_sent(alloc: Global, c: &Command) -> Result<bool, NoMemory>
    requires { IsSound c.now }
    ensures { IfOk result (λ can. IsTrue can ↔ IsSendable c.now) }
{
    let body = write_command(alloc, c)?;
    Ok(body.as_slice().len() <= MOST_BODY)
}

/// The octets of the request that gives a command to a controller on this machine (RFC 8040 section 3.6, RFC 9112). They are read
/// as that command, whatever follows them.
pub fn write_operation(alloc: Global, c: &Command) -> Result<Octets, NoMemory>
    requires { IsSendable c.now }
    ensures text { IfOk result (λ text. text ≡ request_text (command_message c.now)) }
    ensures looks { IfOk result (λ text. (rest : List ℕ)
        → Looks Request (text ++ rest) (Gives (request_again (command_message c.now)) (length text))) }
    ensures again { IfOk result (λ text. requested (request_again (command_message c.now)) ≡ Ok c.now) }
{
    let message = request_of(alloc, c)?;
    write_request(alloc, &message)
}
