//! Links. A link that leads somewhere is followed, except by a removal. A link that leads nowhere
//! counts as absent.

/// Links that lead somewhere.
pub(crate) const SOMEWHERE: &str = "write outside/f x -> done\n\
     write inside/a -> done\n\
     link inside/folder ../outside\n\
     link inside/file ../outside/f\n\
     list inside -> /inside/a /inside/file /inside/folder/f \n\
     read inside/file -> x\n\
     remove inside -> done\n\
     list -> /outside/f \n\
     counts -> 0 0";

/// A removal removes a link, but not what the link leads to.
pub(crate) const THE_LINK_ALONE: &str = "write outside/f x -> done\n\
     link folder outside\n\
     list folder -> /folder/f \n\
     remove folder -> done\n\
     list -> /outside/f \n\
     counts -> 0 0";

/// Links that lead nowhere.
pub(crate) const NOWHERE: &str = "link dangling no/such/file\n\
     link itself itself\n\
     link device /dev/null\n\
     read dangling -> none\n\
     read itself -> none\n\
     read device -> none\n\
     list -> \n\
     remove itself -> done\n\
     counts -> 0 0";

/// Links in a circle.
pub(crate) const CIRCLE: &str = "link here .\n\
     link again .\n\
     list -> List\n\
     counts -> 1 0\n\
     remove here -> done\n\
     counts -> 1 1";

/// A folder that is left out.
pub(crate) const LEFT_OUT: &str = "write a/f x -> done\n\
     write t/g x -> done\n\
     link t/here .\n\
     list -> List\n\
     outside  t -> /a/f \n\
     outside t . -> \n\
     outside  no -> List\n\
     counts -> 2 0";

/// Files directly in a folder.
pub(crate) const DIRECTLY: &str = "write b x -> done\n\
     write a x -> done\n\
     write deep/f x -> done\n\
     link deep/here .\n\
     link again .\n\
     link named deep/f\n\
     link nowhere nothing\n\
     list -> List\n\
     directly -> /a /b /named \n\
     directly deep -> /deep/f \n\
     directly a -> \n\
     directly none -> \n\
     counts -> 1 4";

/// Links into a target folder: from elsewhere they are passed over, from inside they are followed.
pub(crate) const INTO_A_TARGET: &str =
    "write t/CACHEDIR.TAG # This is a target folder of pb_tool. -> done\n\
     write t/d/f x -> done\n\
     write s/a x -> done\n\
     link s/folder ../t/d\n\
     link s/file ../t/d/f\n\
     link s/all ../t\n\
     link t/again d\n\
     list s -> /s/a \n\
     directly s -> /s/a \n\
     folders s none -> \n\
     list t -> /t/CACHEDIR.TAG /t/again/f /t/d/f \n\
     read s/file -> x\n\
     counts -> 0 0";
