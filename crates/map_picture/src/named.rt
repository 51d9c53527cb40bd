//! How a map is named in pictures.

use std::marker::Model;

/// A map's name, and the decimal places of the unit in which its points are told: a map unit is 10^places of them.
#[derive(Drop)]
pub struct Named<'a> {
    pub text: &'a str,
    pub places: u8,
}

impl<'a> Model for Named<'a> {
    ghost use Rattle.map_picture.specs.Picture.{NamedParts};

    ghost Value = { NamedParts };

    ghost view = { λ n. record { text = n.text.now; places = n.places } };
}
