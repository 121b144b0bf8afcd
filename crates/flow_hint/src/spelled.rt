// Types as they are written.

use flow_base::memory::NoMemory;
use flow_tree::ty::Ty;
use flow_types::type_view::{ElementView, TypeView};

#[cycle(types)]
fn put_wrapped(out: &mut Vec<u8>, outer: &[u8], of: &Ty) -> Result<(), NoMemory> {
    out.extend_from_slice(outer)?;
    out.push(b'<')?;
    put_type(out, of)?;
    out.push(b'>')?;
    Ok(())
}

/// Adds a written type.
#[cycle(types)]
pub fn put_type(out: &mut Vec<u8>, ty: &Ty) -> Result<(), NoMemory> {
    match ty {
        Ty::Int => out.extend_from_slice(b"int")?,
        Ty::Bool => out.extend_from_slice(b"bool")?,
        Ty::Str => out.extend_from_slice(b"string")?,
        Ty::Void => out.extend_from_slice(b"Void")?,
        Ty::Error => out.extend_from_slice(b"Error")?,
        Ty::Named(name) => out.extend_from_slice(name.bytes())?,
        Ty::Future(of) => put_wrapped(out, b"Future", of)?,
        Ty::FutureStream(of) => put_wrapped(out, b"FutureStream", of)?,
        Ty::Promise(of) => put_wrapped(out, b"Promise", of)?,
        Ty::PromiseStream(of) => put_wrapped(out, b"PromiseStream", of)?,
        Ty::Vector(of) => put_wrapped(out, b"vector", of)?,
    }
    Ok(())
}

fn put_element(out: &mut Vec<u8>, outer: &[u8], of: ElementView<'_>) -> Result<(), NoMemory> {
    out.extend_from_slice(outer)?;
    out.push(b'<')?;
    match of {
        ElementView::Written(ty) => put_type(out, ty)?,
        ElementView::Void => out.extend_from_slice(b"Void")?,
        ElementView::Int => out.extend_from_slice(b"int")?,
        ElementView::Text => out.extend_from_slice(b"string")?,
        ElementView::Packet => out.extend_from_slice(b"Packet")?,
    }
    out.push(b'>')?;
    Ok(())
}

/// Adds a type that was found.
pub fn put_found(out: &mut Vec<u8>, ty: TypeView<'_>) -> Result<(), NoMemory> {
    match ty {
        TypeView::Int => out.extend_from_slice(b"int")?,
        TypeView::Bool => out.extend_from_slice(b"bool")?,
        TypeView::Str => out.extend_from_slice(b"string")?,
        TypeView::Void => out.extend_from_slice(b"Void")?,
        TypeView::Error => out.extend_from_slice(b"Error")?,
        TypeView::Named(name) => out.extend_from_slice(name)?,
        TypeView::Future(of) => put_element(out, b"Future", of)?,
        TypeView::FutureStream(of) => put_element(out, b"FutureStream", of)?,
        TypeView::Promise(of) => put_wrapped(out, b"Promise", of)?,
        TypeView::PromiseStream(of) => put_wrapped(out, b"PromiseStream", of)?,
        TypeView::Vector(of) => put_wrapped(out, b"vector", of)?,
        TypeView::Nothing => out.extend_from_slice(b"void")?,
    }
    Ok(())
}
