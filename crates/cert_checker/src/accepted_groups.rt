//! What an accepted certificate of version 2 is. Builder and checker both cite it.
