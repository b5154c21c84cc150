//! Whole conversations of Mercurial 6.3.2: what `hg push` sent, and the answers that it took, in heads as they
//! are written here.

/// What a client sends for a first push to an empty repository.
pub const ASKED_0: &[u8] =
    b"GET /?cmd=capabilities HTTP/1.1\r\nAccept-Encoding: identity\r\naccept: application/mercurial-0.\
    1\r\nhost: 127.0.0.1:46981\r\nuser-agent: mercurial/proto-1.0 (Mercurial 6.3.2)\r\n\r\nGET /?cmd\
    =batch HTTP/1.1\r\nAccept-Encoding: identity\r\nvary: X-HgArg-1,X-HgProto-1\r\nx-hgarg-1: cmds=h\
    eads+%3Bknown+nodes%3D30b653f69f5c5d07bc0bd38d172d2c1224b7be72\r\nx-hgproto-1: partial-pull\r\na\
    ccept: application/mercurial-0.1\r\nhost: 127.0.0.1:46981\r\nuser-agent: mercurial/proto-1.0 (Me\
    rcurial 6.3.2)\r\n\r\nGET /?cmd=known HTTP/1.1\r\nAccept-Encoding: identity\r\nvary: X-HgArg-1,X\
    -HgProto-1\r\nx-hgarg-1: nodes=4b7a786830f0205358d0cc466c3dfab83c3aab22\r\nx-hgproto-1: partial-\
    pull\r\naccept: application/mercurial-0.1\r\nhost: 127.0.0.1:46981\r\nuser-agent: mercurial/prot\
    o-1.0 (Mercurial 6.3.2)\r\n\r\nGET /?cmd=listkeys HTTP/1.1\r\nAccept-Encoding: identity\r\nvary: \
    X-HgArg-1,X-HgProto-1\r\nx-hgarg-1: namespace=phases\r\nx-hgproto-1: partial-pull\r\naccept: app\
    lication/mercurial-0.1\r\nhost: 127.0.0.1:46981\r\nuser-agent: mercurial/proto-1.0 (Mercurial 6.\
    3.2)\r\n\r\nGET /?cmd=listkeys HTTP/1.1\r\nAccept-Encoding: identity\r\nvary: X-HgArg-1,X-HgProt\
    o-1\r\nx-hgarg-1: namespace=bookmarks\r\nx-hgproto-1: partial-pull\r\naccept: application/mercur\
    ial-0.1\r\nhost: 127.0.0.1:46981\r\nuser-agent: mercurial/proto-1.0 (Mercurial 6.3.2)\r\n\r\nPOS\
    T /?cmd=unbundle HTTP/1.1\r\nAccept-Encoding: identity\r\ncontent-type: application/mercurial-0.\
    1\r\nvary: X-HgArg-1,X-HgProto-1\r\nx-hgarg-1: heads=666f726365\r\nx-hgproto-1: partial-pull\r\n\
    accept: application/mercurial-0.1\r\ncontent-length: 1284\r\nhost: 127.0.0.1:46981\r\nuser-agent\
    : mercurial/proto-1.0 (Mercurial 6.3.2)\r\n\r\nHG20\0\0\0\0\0\0\0\x10\tREPLYCAPS\0\0\0\0\0\0\0\0\
    \0\xe0HG20\nbookmarks\nchangegroup=01,02\ncheckheads=related\ndigests=md5,sha1,sha512\nerror=abo\
    rt,unsupportedcontent,pushraced,pushkey\nhgtagsfnodes\nlistkeys\nobsmarkers=V0,V1\nphases=heads\
    \npushkey\nremote-changegroup=http,https\nstream=v2\0\0\0\0\0\0\0\x12\x0bCHECK:HEADS\0\0\0\x01\0\
    \0\0\0\0\x14\0\0\0\0\0\0\0\0\0\0\0\0\0\0\0\0\0\0\0\0\0\0\0\0\0\0\0\x1d\x0bCHANGEGROUP\0\0\0\x02\
    \x01\0\x07\x02version02\0\0\x03\xa1\0\0\0\xb1Kzxh0\xf0 SX\xd0\xccFl=\xfa\xb8<:\xab\"\0\0\0\0\0\0\
    \0\0\0\0\0\0\0\0\0\0\0\0\0\0\0\0\0\0\0\0\0\0\0\0\0\0\0\0\0\0\0\0\0\0\0\0\0\0\0\0\0\0\0\0\0\0\0\0\
    \0\0\0\0\0\0Kzxh0\xf0 SX\xd0\xccFl=\xfa\xb8<:\xab\"\0\0\0\0\0\0\0\0\0\0\0=ded30f2c0d11847679deba\
    f183815001ca25f28e\nTest <t@e>\n0 0\nf\n\nc0\0\0\0\xb10\xb6S\xf6\x9f\\]\x07\xbc\x0b\xd3\x8d\x17-\
    ,\x12$\xb7\xberKzxh0\xf0 SX\xd0\xccFl=\xfa\xb8<:\xab\"\0\0\0\0\0\0\0\0\0\0\0\0\0\0\0\0\0\0\0\0\0\
    \0\0\0\0\0\0\0\0\0\0\0\0\0\0\0\0\0\0\00\xb6S\xf6\x9f\\]\x07\xbc\x0b\xd3\x8d\x17-,\x12$\xb7\xber\
    \0\0\0\0\0\0\0\0\0\0\0=354588b0088518de9a952239e7ce7024ef659c53\nTest <t@e>\n0 0\nf\n\nc1\0\0\0\
    \0\0\0\0\x9f\xde\xd3\x0f,\r\x11\x84vy\xde\xba\xf1\x83\x81P\x01\xca%\xf2\x8e\0\0\0\0\0\0\0\0\0\0\
    \0\0\0\0\0\0\0\0\0\0\0\0\0\0\0\0\0\0\0\0\0\0\0\0\0\0\0\0\0\0\0\0\0\0\0\0\0\0\0\0\0\0\0\0\0\0\0\0\
    \0\0Kzxh0\xf0 SX\xd0\xccFl=\xfa\xb8<:\xab\"\0\0\0\0\0\0\0\0\0\0\0+f\0362fef284ce2ca02aecc8de6d5e\
    8a1c3af0556fe\n\0\0\0\x9f5E\x88\xb0\x08\x85\x18\xde\x9a\x95\"9\xe7\xcep$\xefe\x9cS\xde\xd3\x0f,\
    \r\x11\x84vy\xde\xba\xf1\x83\x81P\x01\xca%\xf2\x8e\0\0\0\0\0\0\0\0\0\0\0\0\0\0\0\0\0\0\0\0\xde\
    \xd3\x0f,\r\x11\x84vy\xde\xba\xf1\x83\x81P\x01\xca%\xf2\x8e0\xb6S\xf6\x9f\\]\x07\xbc\x0b\xd3\x8d\
    \x17-,\x12$\xb7\xber\0\0\0\0\0\0\0+\0\0\0+f\0c10f2164107ded497ae7ba46edb500988aa4254b\n\0\0\0\0\
    \0\0\0\x05f\0\0\0v6/\xef(L\xe2\xca\x02\xae\xcc\x8d\xe6\xd5\xe8\xa1\xc3\xaf\x05V\xfe\0\0\0\0\0\0\
    \0\0\0\0\0\0\0\0\0\0\0\0\0\0\0\0\0\0\0\0\0\0\0\0\0\0\0\0\0\0\0\0\0\0\0\0\0\0\0\0\0\0\0\0\0\0\0\0\
    \0\0\0\0\0\0Kzxh0\xf0 SX\xd0\xccFl=\xfa\xb8<:\xab\"\0\0\0\0\0\0\0\0\0\0\0\x020\n\0\0\0v\xc1\x0f!\
    d\x10}\xedIz\xe7\xbaF\xed\xb5\0\x98\x8a\xa4%K6/\xef(L\xe2\xca\x02\xae\xcc\x8d\xe6\xd5\xe8\xa1\
    \xc3\xaf\x05V\xfe\0\0\0\0\0\0\0\0\0\0\0\0\0\0\0\0\0\0\0\06/\xef(L\xe2\xca\x02\xae\xcc\x8d\xe6\
    \xd5\xe8\xa1\xc3\xaf\x05V\xfe0\xb6S\xf6\x9f\\]\x07\xbc\x0b\xd3\x8d\x17-,\x12$\xb7\xber\0\0\0\0\0\
    \0\0\x02\0\0\0\x021\n\0\0\0\0\0\0\0\0\0\0\0\0\0\0\0\0GET /?cmd=listkeys HTTP/1.1\r\nAccept-Encod\
    ing: identity\r\nvary: X-HgArg-1,X-HgProto-1\r\nx-hgarg-1: namespace=phases\r\nx-hgproto-1: part\
    ial-pull\r\naccept: application/mercurial-0.1\r\nhost: 127.0.0.1:46981\r\nuser-agent: mercurial/\
    proto-1.0 (Mercurial 6.3.2)\r\n\r\n";

/// What it is answered.
pub const TOLD_0: &[u8] =
    b"HTTP/1.1 200 OK\r\ncontent-type: application/mercurial-0.1\r\ncontent-length: 224\r\n\r\nbatch b\
    ranchmap bundle2=HG20%0Abookmarks%0Achangegroup%3D01%2C02%0Aerror%3Dabort%2Cunsupportedcontent%2\
    Cpushraced%2Cpushkey%0Aobsmarkers%3DV0%0Aphases%3Dheads%0Apushkey getbundle httpheader=1024 know\
    n lookup pushkey unbundleHTTP/1.1 200 OK\r\ncontent-type: application/mercurial-0.1\r\ncontent-l\
    ength: 43\r\n\r\n0000000000000000000000000000000000000000\n;0HTTP/1.1 200 OK\r\ncontent-type: ap\
    plication/mercurial-0.1\r\ncontent-length: 1\r\n\r\n0HTTP/1.1 200 OK\r\ncontent-type: applicatio\
    n/mercurial-0.1\r\ncontent-length: 0\r\n\r\nHTTP/1.1 200 OK\r\ncontent-type: application/mercuri\
    al-0.1\r\ncontent-length: 0\r\n\r\nHTTP/1.1 200 OK\r\ncontent-type: application/mercurial-0.1\r\
    \ncontent-length: 67\r\n\r\nHG20\0\0\0\0\0\0\0/\x11reply:changegroup\0\0\0\0\0\x02\x0b\x01\x06\
    \x01in-reply-to2return1\0\0\0\0\0\0\0\0HTTP/1.1 200 OK\r\ncontent-type: application/mercurial-0.\
    1\r\ncontent-length: 42\r\n\r\n4b7a786830f0205358d0cc466c3dfab83c3aab22\t1";

/// What a client sends for a rewriting push after it, with a marker, a bookmark and a phase.
pub const ASKED_1: &[u8] =
    b"GET /?cmd=capabilities HTTP/1.1\r\nAccept-Encoding: identity\r\naccept: application/mercurial-0.\
    1\r\nhost: 127.0.0.1:46981\r\nuser-agent: mercurial/proto-1.0 (Mercurial 6.3.2)\r\n\r\nGET /?cmd\
    =batch HTTP/1.1\r\nAccept-Encoding: identity\r\nvary: X-HgArg-1,X-HgProto-1\r\nx-hgarg-1: cmds=h\
    eads+%3Bknown+nodes%3D3f32c9ec310813353620bc414daa26628e9f48be\r\nx-hgproto-1: partial-pull\r\na\
    ccept: application/mercurial-0.1\r\nhost: 127.0.0.1:46981\r\nuser-agent: mercurial/proto-1.0 (Me\
    rcurial 6.3.2)\r\n\r\nGET /?cmd=known HTTP/1.1\r\nAccept-Encoding: identity\r\nvary: X-HgArg-1,X\
    -HgProto-1\r\nx-hgarg-1: nodes=4b7a786830f0205358d0cc466c3dfab83c3aab22\r\nx-hgproto-1: partial-\
    pull\r\naccept: application/mercurial-0.1\r\nhost: 127.0.0.1:46981\r\nuser-agent: mercurial/prot\
    o-1.0 (Mercurial 6.3.2)\r\n\r\nGET /?cmd=listkeys HTTP/1.1\r\nAccept-Encoding: identity\r\nvary: \
    X-HgArg-1,X-HgProto-1\r\nx-hgarg-1: namespace=phases\r\nx-hgproto-1: partial-pull\r\naccept: app\
    lication/mercurial-0.1\r\nhost: 127.0.0.1:46981\r\nuser-agent: mercurial/proto-1.0 (Mercurial 6.\
    3.2)\r\n\r\nGET /?cmd=listkeys HTTP/1.1\r\nAccept-Encoding: identity\r\nvary: X-HgArg-1,X-HgProt\
    o-1\r\nx-hgarg-1: namespace=namespaces\r\nx-hgproto-1: partial-pull\r\naccept: application/mercu\
    rial-0.1\r\nhost: 127.0.0.1:46981\r\nuser-agent: mercurial/proto-1.0 (Mercurial 6.3.2)\r\n\r\nGE\
    T /?cmd=listkeys HTTP/1.1\r\nAccept-Encoding: identity\r\nvary: X-HgArg-1,X-HgProto-1\r\nx-hgarg\
    -1: namespace=bookmarks\r\nx-hgproto-1: partial-pull\r\naccept: application/mercurial-0.1\r\nhos\
    t: 127.0.0.1:46981\r\nuser-agent: mercurial/proto-1.0 (Mercurial 6.3.2)\r\n\r\nGET /?cmd=branchm\
    ap HTTP/1.1\r\nAccept-Encoding: identity\r\nvary: X-HgProto-1\r\nx-hgproto-1: partial-pull\r\nac\
    cept: application/mercurial-0.1\r\nhost: 127.0.0.1:46981\r\nuser-agent: mercurial/proto-1.0 (Mer\
    curial 6.3.2)\r\n\r\nGET /?cmd=listkeys HTTP/1.1\r\nAccept-Encoding: identity\r\nvary: X-HgArg-1\
    ,X-HgProto-1\r\nx-hgarg-1: namespace=bookmarks\r\nx-hgproto-1: partial-pull\r\naccept: applicati\
    on/mercurial-0.1\r\nhost: 127.0.0.1:46981\r\nuser-agent: mercurial/proto-1.0 (Mercurial 6.3.2)\r\
    \n\r\nPOST /?cmd=unbundle HTTP/1.1\r\nAccept-Encoding: identity\r\ncontent-type: application/mer\
    curial-0.1\r\nvary: X-HgArg-1,X-HgProto-1\r\nx-hgarg-1: heads=666f726365\r\nx-hgproto-1: partial\
    -pull\r\naccept: application/mercurial-0.1\r\ncontent-length: 1240\r\nhost: 127.0.0.1:46981\r\nu\
    ser-agent: mercurial/proto-1.0 (Mercurial 6.3.2)\r\n\r\nHG20\0\0\0\0\0\0\0\x10\tREPLYCAPS\0\0\0\
    \0\0\0\0\0\0\xe0HG20\nbookmarks\nchangegroup=01,02\ncheckheads=related\ndigests=md5,sha1,sha512\
    \nerror=abort,unsupportedcontent,pushraced,pushkey\nhgtagsfnodes\nlistkeys\nobsmarkers=V0,V1\nph\
    ases=heads\npushkey\nremote-changegroup=http,https\nstream=v2\0\0\0\0\0\0\0\x16\x0fCHECK:BOOKMAR\
    KS\0\0\0\x01\0\0\0\0\0\x1a\xff\xff\xff\xff\xff\xff\xff\xff\xff\xff\xff\xff\xff\xff\xff\xff\xff\
    \xff\xff\xff\0\x04main\0\0\0\0\0\0\0\x13\x0cCHECK:PHASES\0\0\0\x02\0\0\0\0\0\x18\0\0\0\x01Kzxh0\
    \xf0 SX\xd0\xccFl=\xfa\xb8<:\xab\"\0\0\0\0\0\0\0\x12\x0bCHECK:HEADS\0\0\0\x03\0\0\0\0\0\x140\xb6\
    S\xf6\x9f\\]\x07\xbc\x0b\xd3\x8d\x17-,\x12$\xb7\xber\0\0\0\0\0\0\0\x1d\x0bCHANGEGROUP\0\0\0\x04\
    \x01\0\x07\x02version02\0\0\x02\x1a\0\0\0\xef?2\xc9\xec1\x08\x1356 \xbcAM\xaa&b\x8e\x9fH\xbeKzxh\
    0\xf0 SX\xd0\xccFl=\xfa\xb8<:\xab\"\0\0\0\0\0\0\0\0\0\0\0\0\0\0\0\0\0\0\0\0\0\0\0\0\0\0\0\0\0\0\
    \0\0\0\0\0\0\0\0\0\0?2\xc9\xec1\x08\x1356 \xbcAM\xaa&b\x8e\x9fH\xbe\0\0\0\0\0\0\0\0\0\0\0{f75baf\
    1a463ff564f0df6d8dae69b0fba590f428\nTest <t@e>\n0 0 amend_source:30b653f69f5c5d07bc0bd38d172d2c1\
    224b7be72\nf\n\nc1 amended\0\0\0\0\0\0\0\x9f\xf7[\xaf\x1aF?\xf5d\xf0\xdfm\x8d\xaei\xb0\xfb\xa5\
    \x90\xf4(\xde\xd3\x0f,\r\x11\x84vy\xde\xba\xf1\x83\x81P\x01\xca%\xf2\x8e\0\0\0\0\0\0\0\0\0\0\0\0\
    \0\0\0\0\0\0\0\0\xde\xd3\x0f,\r\x11\x84vy\xde\xba\xf1\x83\x81P\x01\xca%\xf2\x8e?2\xc9\xec1\x08\
    \x1356 \xbcAM\xaa&b\x8e\x9fH\xbe\0\0\0\0\0\0\0+\0\0\0+f\00df6efd16b9ab51456f588b50f4ff861b84939c\
    a\n\0\0\0\0\0\0\0\x05f\0\0\0w\r\xf6\xef\xd1k\x9a\xb5\x14V\xf5\x88\xb5\x0fO\xf8a\xb8I9\xca6/\xef(\
    L\xe2\xca\x02\xae\xcc\x8d\xe6\xd5\xe8\xa1\xc3\xaf\x05V\xfe\0\0\0\0\0\0\0\0\0\0\0\0\0\0\0\0\0\0\0\
    \06/\xef(L\xe2\xca\x02\xae\xcc\x8d\xe6\xd5\xe8\xa1\xc3\xaf\x05V\xfe?2\xc9\xec1\x08\x1356 \xbcAM\
    \xaa&b\x8e\x9fH\xbe\0\0\0\0\0\0\0\x02\0\0\0\x031b\n\0\0\0\0\0\0\0\0\0\0\0\0\0\0\0\x12\x0bPHASE-H\
    EADS\0\0\0\x05\0\0\0\0\0\x18\0\0\0\0Kzxh0\xf0 SX\xd0\xccFl=\xfa\xb8<:\xab\"\0\0\0\0\0\0\0\x11\nO\
    BSMARKERS\0\0\0\x06\0\0\0\0\0_\0\x01\0\0\00\00\xb6S\xf6\x9f\\]\x07\xbc\x0b\xd3\x8d\x17-,\x12$\
    \xb7\xber?2\xc9\xec1\x08\x1356 \xbcAM\xaa&b\x8e\x9fH\xbedate:0.0 0\0ef1:9\0operation:amend\0user\
    :Test <t@e>\0\0\0\0\0\0\0\x10\tBOOKMARKS\0\0\0\x07\0\0\0\0\0\x1a?2\xc9\xec1\x08\x1356 \xbcAM\xaa\
    &b\x8e\x9fH\xbe\0\x04main\0\0\0\0\0\0\0\0GET /?cmd=listkeys HTTP/1.1\r\nAccept-Encoding: identit\
    y\r\nvary: X-HgArg-1,X-HgProto-1\r\nx-hgarg-1: namespace=phases\r\nx-hgproto-1: partial-pull\r\n\
    accept: application/mercurial-0.1\r\nhost: 127.0.0.1:46981\r\nuser-agent: mercurial/proto-1.0 (M\
    ercurial 6.3.2)\r\n\r\n";

/// What it is answered.
pub const TOLD_1: &[u8] =
    b"HTTP/1.1 200 OK\r\ncontent-type: application/mercurial-0.1\r\ncontent-length: 224\r\n\r\nbatch b\
    ranchmap bundle2=HG20%0Abookmarks%0Achangegroup%3D01%2C02%0Aerror%3Dabort%2Cunsupportedcontent%2\
    Cpushraced%2Cpushkey%0Aobsmarkers%3DV0%0Aphases%3Dheads%0Apushkey getbundle httpheader=1024 know\
    n lookup pushkey unbundleHTTP/1.1 200 OK\r\ncontent-type: application/mercurial-0.1\r\ncontent-l\
    ength: 43\r\n\r\n30b653f69f5c5d07bc0bd38d172d2c1224b7be72\n;0HTTP/1.1 200 OK\r\ncontent-type: ap\
    plication/mercurial-0.1\r\ncontent-length: 1\r\n\r\n1HTTP/1.1 200 OK\r\ncontent-type: applicatio\
    n/mercurial-0.1\r\ncontent-length: 42\r\n\r\n4b7a786830f0205358d0cc466c3dfab83c3aab22\t1HTTP/1.1 \
    200 OK\r\ncontent-type: application/mercurial-0.1\r\ncontent-length: 40\r\n\r\nbookmarks\t\nname\
    spaces\t\nobsolete\t\nphases\tHTTP/1.1 200 OK\r\ncontent-type: application/mercurial-0.1\r\ncont\
    ent-length: 0\r\n\r\nHTTP/1.1 200 OK\r\ncontent-type: application/mercurial-0.1\r\ncontent-lengt\
    h: 48\r\n\r\ndefault 30b653f69f5c5d07bc0bd38d172d2c1224b7be72HTTP/1.1 200 OK\r\ncontent-type: ap\
    plication/mercurial-0.1\r\ncontent-length: 0\r\n\r\nHTTP/1.1 200 OK\r\ncontent-type: application\
    /mercurial-0.1\r\ncontent-length: 118\r\n\r\nHG20\0\0\0\0\0\0\0/\x11reply:changegroup\0\0\0\0\0\
    \x02\x0b\x01\x06\x01in-reply-to4return2\0\0\0\0\0\0\0+\x10reply:obsmarkers\0\0\0\x01\0\x02\x0b\
    \x01\x03\x01in-reply-to6new1\0\0\0\0\0\0\0\0HTTP/1.1 200 OK\r\ncontent-type: application/mercuri\
    al-0.1\r\ncontent-length: 85\r\n\r\n30b653f69f5c5d07bc0bd38d172d2c1224b7be72\t1\n3f32c9ec3108133\
    53620bc414daa26628e9f48be\t1";

/// What a client sends for a later push.
pub const ASKED_2: &[u8] =
    b"GET /?cmd=capabilities HTTP/1.1\r\nAccept-Encoding: identity\r\naccept: application/mercurial-0.\
    1\r\nhost: 127.0.0.1:46981\r\nuser-agent: mercurial/proto-1.0 (Mercurial 6.3.2)\r\n\r\nGET /?cmd\
    =batch HTTP/1.1\r\nAccept-Encoding: identity\r\nvary: X-HgArg-1,X-HgProto-1\r\nx-hgarg-1: cmds=h\
    eads+%3Bknown+nodes%3D2c9e373d819bfee7cca63354d0457853fa66f13c\r\nx-hgproto-1: partial-pull\r\na\
    ccept: application/mercurial-0.1\r\nhost: 127.0.0.1:46981\r\nuser-agent: mercurial/proto-1.0 (Me\
    rcurial 6.3.2)\r\n\r\nGET /?cmd=listkeys HTTP/1.1\r\nAccept-Encoding: identity\r\nvary: X-HgArg-\
    1,X-HgProto-1\r\nx-hgarg-1: namespace=phases\r\nx-hgproto-1: partial-pull\r\naccept: application\
    /mercurial-0.1\r\nhost: 127.0.0.1:46981\r\nuser-agent: mercurial/proto-1.0 (Mercurial 6.3.2)\r\n\
    \r\nGET /?cmd=listkeys HTTP/1.1\r\nAccept-Encoding: identity\r\nvary: X-HgArg-1,X-HgProto-1\r\nx\
    -hgarg-1: namespace=namespaces\r\nx-hgproto-1: partial-pull\r\naccept: application/mercurial-0.1\
    \r\nhost: 127.0.0.1:46981\r\nuser-agent: mercurial/proto-1.0 (Mercurial 6.3.2)\r\n\r\nGET /?cmd=\
    listkeys HTTP/1.1\r\nAccept-Encoding: identity\r\nvary: X-HgArg-1,X-HgProto-1\r\nx-hgarg-1: name\
    space=bookmarks\r\nx-hgproto-1: partial-pull\r\naccept: application/mercurial-0.1\r\nhost: 127.0\
    .0.1:46981\r\nuser-agent: mercurial/proto-1.0 (Mercurial 6.3.2)\r\n\r\nGET /?cmd=branchmap HTTP/\
    1.1\r\nAccept-Encoding: identity\r\nvary: X-HgProto-1\r\nx-hgproto-1: partial-pull\r\naccept: ap\
    plication/mercurial-0.1\r\nhost: 127.0.0.1:46981\r\nuser-agent: mercurial/proto-1.0 (Mercurial 6\
    .3.2)\r\n\r\nGET /?cmd=listkeys HTTP/1.1\r\nAccept-Encoding: identity\r\nvary: X-HgArg-1,X-HgPro\
    to-1\r\nx-hgarg-1: namespace=bookmarks\r\nx-hgproto-1: partial-pull\r\naccept: application/mercu\
    rial-0.1\r\nhost: 127.0.0.1:46981\r\nuser-agent: mercurial/proto-1.0 (Mercurial 6.3.2)\r\n\r\nPO\
    ST /?cmd=unbundle HTTP/1.1\r\nAccept-Encoding: identity\r\ncontent-type: application/mercurial-0\
    .1\r\nvary: X-HgArg-1,X-HgProto-1\r\nx-hgarg-1: heads=666f726365\r\nx-hgproto-1: partial-pull\r\
    \naccept: application/mercurial-0.1\r\ncontent-length: 1079\r\nhost: 127.0.0.1:46981\r\nuser-age\
    nt: mercurial/proto-1.0 (Mercurial 6.3.2)\r\n\r\nHG20\0\0\0\0\0\0\0\x10\tREPLYCAPS\0\0\0\0\0\0\0\
    \0\0\xe0HG20\nbookmarks\nchangegroup=01,02\ncheckheads=related\ndigests=md5,sha1,sha512\nerror=a\
    bort,unsupportedcontent,pushraced,pushkey\nhgtagsfnodes\nlistkeys\nobsmarkers=V0,V1\nphases=head\
    s\npushkey\nremote-changegroup=http,https\nstream=v2\0\0\0\0\0\0\0\x13\x0cCHECK:PHASES\0\0\0\x01\
    \0\0\0\0\0H\0\0\0\0Kzxh0\xf0 SX\xd0\xccFl=\xfa\xb8<:\xab\"\0\0\0\x010\xb6S\xf6\x9f\\]\x07\xbc\
    \x0b\xd3\x8d\x17-,\x12$\xb7\xber\0\0\0\x01?2\xc9\xec1\x08\x1356 \xbcAM\xaa&b\x8e\x9fH\xbe\0\0\0\
    \0\0\0\0\x12\x0bCHECK:HEADS\0\0\0\x02\0\0\0\0\0(0\xb6S\xf6\x9f\\]\x07\xbc\x0b\xd3\x8d\x17-,\x12$\
    \xb7\xber?2\xc9\xec1\x08\x1356 \xbcAM\xaa&b\x8e\x9fH\xbe\0\0\0\0\0\0\0\x1d\x0bCHANGEGROUP\0\0\0\
    \x03\x01\0\x07\x02version02\0\0\x01\xdd\0\0\0\xb3,\x9e7=\x81\x9b\xfe\xe7\xcc\xa63T\xd0ExS\xfaf\
    \xf1<?2\xc9\xec1\x08\x1356 \xbcAM\xaa&b\x8e\x9fH\xbe\0\0\0\0\0\0\0\0\0\0\0\0\0\0\0\0\0\0\0\0\0\0\
    \0\0\0\0\0\0\0\0\0\0\0\0\0\0\0\0\0\0,\x9e7=\x81\x9b\xfe\xe7\xcc\xa63T\xd0ExS\xfaf\xf1<\0\0\0\0\0\
    \0\0\0\0\0\0?07f58be9838609fc5d9021eee61558137522ed93\nTest <t@e>\n0 0\ng\n\nmore\0\0\0\0\0\0\0\
    \x9f\x07\xf5\x8b\xe9\x83\x86\t\xfc]\x90!\xee\xe6\x15X\x13u\"\xed\x93\xf7[\xaf\x1aF?\xf5d\xf0\xdf\
    m\x8d\xaei\xb0\xfb\xa5\x90\xf4(\0\0\0\0\0\0\0\0\0\0\0\0\0\0\0\0\0\0\0\0\xf7[\xaf\x1aF?\xf5d\xf0\
    \xdfm\x8d\xaei\xb0\xfb\xa5\x90\xf4(,\x9e7=\x81\x9b\xfe\xe7\xcc\xa63T\xd0ExS\xfaf\xf1<\0\0\0+\0\0\
    \0+\0\0\0+g\0b8e02f6433738021a065f94175c7cd23db5f05be\n\0\0\0\0\0\0\0\x05g\0\0\0v\xb8\xe0/d3s\
    \x80!\xa0e\xf9Au\xc7\xcd#\xdb_\x05\xbe\0\0\0\0\0\0\0\0\0\0\0\0\0\0\0\0\0\0\0\0\0\0\0\0\0\0\0\0\0\
    \0\0\0\0\0\0\0\0\0\0\0\0\0\0\0\0\0\0\0\0\0\0\0\0\0\0\0\0\0\0\0,\x9e7=\x81\x9b\xfe\xe7\xcc\xa63T\
    \xd0ExS\xfaf\xf1<\0\0\0\0\0\0\0\0\0\0\0\x021\n\0\0\0\0\0\0\0\0\0\0\0\0\0\0\0\x11\nOBSMARKERS\0\0\
    \0\x04\0\0\0\0\0_\0\x01\0\0\00\00\xb6S\xf6\x9f\\]\x07\xbc\x0b\xd3\x8d\x17-,\x12$\xb7\xber?2\xc9\
    \xec1\x08\x1356 \xbcAM\xaa&b\x8e\x9fH\xbedate:0.0 0\0ef1:9\0operation:amend\0user:Test <t@e>\0\0\
    \0\0\0\0\0\0GET /?cmd=listkeys HTTP/1.1\r\nAccept-Encoding: identity\r\nvary: X-HgArg-1,X-HgProt\
    o-1\r\nx-hgarg-1: namespace=phases\r\nx-hgproto-1: partial-pull\r\naccept: application/mercurial\
    -0.1\r\nhost: 127.0.0.1:46981\r\nuser-agent: mercurial/proto-1.0 (Mercurial 6.3.2)\r\n\r\n";

/// What it is answered.
pub const TOLD_2: &[u8] =
    b"HTTP/1.1 200 OK\r\ncontent-type: application/mercurial-0.1\r\ncontent-length: 224\r\n\r\nbatch b\
    ranchmap bundle2=HG20%0Abookmarks%0Achangegroup%3D01%2C02%0Aerror%3Dabort%2Cunsupportedcontent%2\
    Cpushraced%2Cpushkey%0Aobsmarkers%3DV0%0Aphases%3Dheads%0Apushkey getbundle httpheader=1024 know\
    n lookup pushkey unbundleHTTP/1.1 200 OK\r\ncontent-type: application/mercurial-0.1\r\ncontent-l\
    ength: 84\r\n\r\n30b653f69f5c5d07bc0bd38d172d2c1224b7be72 3f32c9ec310813353620bc414daa26628e9f48\
    be\n;0HTTP/1.1 200 OK\r\ncontent-type: application/mercurial-0.1\r\ncontent-length: 85\r\n\r\n30\
    b653f69f5c5d07bc0bd38d172d2c1224b7be72\t1\n3f32c9ec310813353620bc414daa26628e9f48be\t1HTTP/1.1 2\
    00 OK\r\ncontent-type: application/mercurial-0.1\r\ncontent-length: 40\r\n\r\nbookmarks\t\nnames\
    paces\t\nobsolete\t\nphases\tHTTP/1.1 200 OK\r\ncontent-type: application/mercurial-0.1\r\nconte\
    nt-length: 45\r\n\r\nmain\t3f32c9ec310813353620bc414daa26628e9f48beHTTP/1.1 200 OK\r\ncontent-ty\
    pe: application/mercurial-0.1\r\ncontent-length: 48\r\n\r\ndefault 3f32c9ec310813353620bc414daa2\
    6628e9f48beHTTP/1.1 200 OK\r\ncontent-type: application/mercurial-0.1\r\ncontent-length: 45\r\n\
    \r\nmain\t3f32c9ec310813353620bc414daa26628e9f48beHTTP/1.1 200 OK\r\ncontent-type: application/m\
    ercurial-0.1\r\ncontent-length: 118\r\n\r\nHG20\0\0\0\0\0\0\0/\x11reply:changegroup\0\0\0\0\0\
    \x02\x0b\x01\x06\x01in-reply-to3return1\0\0\0\0\0\0\0+\x10reply:obsmarkers\0\0\0\x01\0\x02\x0b\
    \x01\x03\x01in-reply-to4new0\0\0\0\0\0\0\0\0HTTP/1.1 200 OK\r\ncontent-type: application/mercuri\
    al-0.1\r\ncontent-length: 85\r\n\r\n30b653f69f5c5d07bc0bd38d172d2c1224b7be72\t1\n3f32c9ec3108133\
    53620bc414daa26628e9f48be\t1";

/// What a client sends before a push, after these.
pub const ASKED_3: &[u8] =
    b"GET /?cmd=capabilities HTTP/1.1\r\nAccept-Encoding: identity\r\naccept: application/mercurial\
    -0.1\r\nhost: 127.0.0.1:46981\r\nuser-agent: mercurial/proto-1.0 (Mercurial 6.3.2)\r\n\r\nGET /\
    ?cmd=batch HTTP/1.1\r\nAccept-Encoding: identity\r\nvary: X-HgArg-1,X-HgProto-1\r\nx-hgarg-1: c\
    mds=heads+%3Bknown+nodes%3D0259c409ca47e144269f47059ae742320a3482a7\r\nx-hgproto-1: partial-pul\
    l\r\naccept: application/mercurial-0.1\r\nhost: 127.0.0.1:46981\r\nuser-agent: mercurial/proto-\
    1.0 (Mercurial 6.3.2)\r\n\r\nGET /?cmd=listkeys HTTP/1.1\r\nAccept-Encoding: identity\r\nvary: \
    X-HgArg-1,X-HgProto-1\r\nx-hgarg-1: namespace=phases\r\nx-hgproto-1: partial-pull\r\naccept: ap\
    plication/mercurial-0.1\r\nhost: 127.0.0.1:46981\r\nuser-agent: mercurial/proto-1.0 (Mercurial \
    6.3.2)\r\n\r\nGET /?cmd=listkeys HTTP/1.1\r\nAccept-Encoding: identity\r\nvary: X-HgArg-1,X-HgP\
    roto-1\r\nx-hgarg-1: namespace=namespaces\r\nx-hgproto-1: partial-pull\r\naccept: application/m\
    ercurial-0.1\r\nhost: 127.0.0.1:46981\r\nuser-agent: mercurial/proto-1.0 (Mercurial 6.3.2)\r\n\
    \r\nGET /?cmd=listkeys HTTP/1.1\r\nAccept-Encoding: identity\r\nvary: X-HgArg-1,X-HgProto-1\r\n\
    x-hgarg-1: namespace=bookmarks\r\nx-hgproto-1: partial-pull\r\naccept: application/mercurial-0.\
    1\r\nhost: 127.0.0.1:46981\r\nuser-agent: mercurial/proto-1.0 (Mercurial 6.3.2)\r\n\r\nGET /?cm\
    d=branchmap HTTP/1.1\r\nAccept-Encoding: identity\r\nvary: X-HgProto-1\r\nx-hgproto-1: partial-\
    pull\r\naccept: application/mercurial-0.1\r\nhost: 127.0.0.1:46981\r\nuser-agent: mercurial/pro\
    to-1.0 (Mercurial 6.3.2)\r\n\r\nGET /?cmd=listkeys HTTP/1.1\r\nAccept-Encoding: identity\r\nvar\
    y: X-HgArg-1,X-HgProto-1\r\nx-hgarg-1: namespace=bookmarks\r\nx-hgproto-1: partial-pull\r\nacce\
    pt: application/mercurial-0.1\r\nhost: 127.0.0.1:46981\r\nuser-agent: mercurial/proto-1.0 (Merc\
    urial 6.3.2)\r\n\r\n";

/// What it is answered.
pub const TOLD_3: &[u8] =
    b"HTTP/1.1 200 OK\r\ncontent-type: application/mercurial-0.1\r\ncontent-length: 224\r\n\r\nbatc\
    h branchmap bundle2=HG20%0Abookmarks%0Achangegroup%3D01%2C02%0Aerror%3Dabort%2Cunsupportedconte\
    nt%2Cpushraced%2Cpushkey%0Aobsmarkers%3DV0%0Aphases%3Dheads%0Apushkey getbundle httpheader=1024 \
    known lookup pushkey unbundleHTTP/1.1 200 OK\r\ncontent-type: application/mercurial-0.1\r\ncont\
    ent-length: 84\r\n\r\n2c9e373d819bfee7cca63354d0457853fa66f13c 30b653f69f5c5d07bc0bd38d172d2c12\
    24b7be72\n;0HTTP/1.1 200 OK\r\ncontent-type: application/mercurial-0.1\r\ncontent-length: 85\r\
    \n\r\n30b653f69f5c5d07bc0bd38d172d2c1224b7be72\t1\n3f32c9ec310813353620bc414daa26628e9f48be\t1H\
    TTP/1.1 200 OK\r\ncontent-type: application/mercurial-0.1\r\ncontent-length: 40\r\n\r\nbookmark\
    s\t\nnamespaces\t\nobsolete\t\nphases\tHTTP/1.1 200 OK\r\ncontent-type: application/mercurial-0\
    .1\r\ncontent-length: 45\r\n\r\nmain\t3f32c9ec310813353620bc414daa26628e9f48beHTTP/1.1 200 OK\r\
    \ncontent-type: application/mercurial-0.1\r\ncontent-length: 48\r\n\r\ndefault 2c9e373d819bfee7\
    cca63354d0457853fa66f13cHTTP/1.1 200 OK\r\ncontent-type: application/mercurial-0.1\r\ncontent-l\
    ength: 45\r\n\r\nmain\t3f32c9ec310813353620bc414daa26628e9f48be";

/// What another client pushes then: a changeset without parents.
pub const OTHER_PUSH: &[u8] =
    b"POST /?cmd=unbundle HTTP/1.1\r\nhost: a\r\ncontent-type: application/mercurial-0.1\r\nx-hgarg\
    -1: heads=666f726365\r\ncontent-length: 245\r\n\r\nHG20\0\0\0\0\0\0\0\x1d\x0bCHANGEGROUP\0\0\0\
    \0\x01\0\x07\x02version02\0\0\0\xc0\0\0\0\xb4\x02#\xba?x\x0e\x08=\xc5`\x08\xe5v\x99\xdb\x04\xfa\
    \x93+\x16\0\0\0\0\0\0\0\0\0\0\0\0\0\0\0\0\0\0\0\0\0\0\0\0\0\0\0\0\0\0\0\0\0\0\0\0\0\0\0\0\0\0\0\
    \0\0\0\0\0\0\0\0\0\0\0\0\0\0\0\0\0\x02#\xba?x\x0e\x08=\xc5`\x08\xe5v\x99\xdb\x04\xfa\x93+\x16\0\
    \0\0\0\0\0\0\0\0\0\0@0000000000000000000000000000000000000000\nTest <t@e>\n0 0\n\nanother\0\0\0\
    \0\0\0\0\0\0\0\0\0\0\0\0\0\0\0\0\0";

/// The push that comes too late.
pub const RACED_3: &[u8] =
    b"POST /?cmd=unbundle HTTP/1.1\r\nAccept-Encoding: identity\r\ncontent-type: application/mercur\
    ial-0.1\r\nvary: X-HgArg-1,X-HgProto-1\r\nx-hgarg-1: heads=666f726365\r\nx-hgproto-1: partial-p\
    ull\r\naccept: application/mercurial-0.1\r\ncontent-length: 1081\r\nhost: 127.0.0.1:46981\r\nus\
    er-agent: mercurial/proto-1.0 (Mercurial 6.3.2)\r\n\r\nHG20\0\0\0\0\0\0\0\x10\tREPLYCAPS\0\0\0\
    \0\0\0\0\0\0\xe0HG20\nbookmarks\nchangegroup=01,02\ncheckheads=related\ndigests=md5,sha1,sha512\
    \nerror=abort,unsupportedcontent,pushraced,pushkey\nhgtagsfnodes\nlistkeys\nobsmarkers=V0,V1\np\
    hases=heads\npushkey\nremote-changegroup=http,https\nstream=v2\0\0\0\0\0\0\0\x13\x0cCHECK:PHASE\
    S\0\0\0\x01\0\0\0\0\0H\0\0\0\0Kzxh0\xf0 SX\xd0\xccFl=\xfa\xb8<:\xab\"\0\0\0\x010\xb6S\xf6\x9f\\\
    ]\x07\xbc\x0b\xd3\x8d\x17-,\x12$\xb7\xber\0\0\0\x01?2\xc9\xec1\x08\x1356 \xbcAM\xaa&b\x8e\x9fH\
    \xbe\0\0\0\0\0\0\0\x12\x0bCHECK:HEADS\0\0\0\x02\0\0\0\0\0(,\x9e7=\x81\x9b\xfe\xe7\xcc\xa63T\xd0\
    ExS\xfaf\xf1<0\xb6S\xf6\x9f\\]\x07\xbc\x0b\xd3\x8d\x17-,\x12$\xb7\xber\0\0\0\0\0\0\0\x1d\x0bCHA\
    NGEGROUP\0\0\0\x03\x01\0\x07\x02version02\0\0\x01\xdf\0\0\0\xb5\x02Y\xc4\t\xcaG\xe1D&\x9fG\x05\
    \x9a\xe7B2\n4\x82\xa7,\x9e7=\x81\x9b\xfe\xe7\xcc\xa63T\xd0ExS\xfaf\xf1<\0\0\0\0\0\0\0\0\0\0\0\0\
    \0\0\0\0\0\0\0\0\0\0\0\0\0\0\0\0\0\0\0\0\0\0\0\0\0\0\0\0\x02Y\xc4\t\xcaG\xe1D&\x9fG\x05\x9a\xe7\
    B2\n4\x82\xa7\0\0\0\0\0\0\0\0\0\0\0A3f12e44299041a2aebd41a4d80d00953cbdcd145\nTest <t@e>\n0 0\n\
    g\n\nfrom a\0\0\0\0\0\0\0\x9f?\x12\xe4B\x99\x04\x1a*\xeb\xd4\x1aM\x80\xd0\tS\xcb\xdc\xd1E\x07\
    \xf5\x8b\xe9\x83\x86\t\xfc]\x90!\xee\xe6\x15X\x13u\"\xed\x93\0\0\0\0\0\0\0\0\0\0\0\0\0\0\0\0\0\
    \0\0\0\x07\xf5\x8b\xe9\x83\x86\t\xfc]\x90!\xee\xe6\x15X\x13u\"\xed\x93\x02Y\xc4\t\xcaG\xe1D&\
    \x9fG\x05\x9a\xe7B2\n4\x82\xa7\0\0\0+\0\0\0V\0\0\0+g\04a1aa07735e673e20c00fae80f40dc301ee30616\
    \n\0\0\0\0\0\0\0\x05g\0\0\0vJ\x1a\xa0w5\xe6s\xe2\x0c\0\xfa\xe8\x0f@\xdc0\x1e\xe3\x06\x16\xb8\
    \xe0/d3s\x80!\xa0e\xf9Au\xc7\xcd#\xdb_\x05\xbe\0\0\0\0\0\0\0\0\0\0\0\0\0\0\0\0\0\0\0\0\xb8\xe0/\
    d3s\x80!\xa0e\xf9Au\xc7\xcd#\xdb_\x05\xbe\x02Y\xc4\t\xcaG\xe1D&\x9fG\x05\x9a\xe7B2\n4\x82\xa7\0\
    \0\0\0\0\0\0\x02\0\0\0\x022\n\0\0\0\0\0\0\0\0\0\0\0\0\0\0\0\x11\nOBSMARKERS\0\0\0\x04\0\0\0\0\0\
    _\0\x01\0\0\00\00\xb6S\xf6\x9f\\]\x07\xbc\x0b\xd3\x8d\x17-,\x12$\xb7\xber?2\xc9\xec1\x08\x1356 \
    \xbcAM\xaa&b\x8e\x9fH\xbedate:0.0 0\0ef1:9\0operation:amend\0user:Test <t@e>\0\0\0\0\0\0\0\0";

/// What it is answered: the heads changed.
pub const TOLD_RACED_3: &[u8] =
    b"HTTP/1.1 200 OK\r\ncontent-type: application/mercurial-0.1\r\ncontent-length: 64\r\n\r\nHG20\
    \0\0\0\0\0\0\0,\x0fERROR:PUSHRACED\0\0\0\0\x01\0\x07\rmessageheads changed\0\0\0\0\0\0\0\0";

/// What `hg id -r main` sends.
pub const ASKED_4: &[u8] =
    b"GET /?cmd=capabilities HTTP/1.1\r\nAccept-Encoding: identity\r\naccept: application/mercurial\
    -0.1\r\nhost: 127.0.0.1:46981\r\nuser-agent: mercurial/proto-1.0 (Mercurial 6.3.2)\r\n\r\nGET /\
    ?cmd=lookup HTTP/1.1\r\nAccept-Encoding: identity\r\nvary: X-HgArg-1,X-HgProto-1\r\nx-hgarg-1: \
    key=main\r\nx-hgproto-1: partial-pull\r\naccept: application/mercurial-0.1\r\nhost: 127.0.0.1:4\
    6981\r\nuser-agent: mercurial/proto-1.0 (Mercurial 6.3.2)\r\n\r\nGET /?cmd=listkeys HTTP/1.1\r\
    \nAccept-Encoding: identity\r\nvary: X-HgArg-1,X-HgProto-1\r\nx-hgarg-1: namespace=namespaces\r\
    \nx-hgproto-1: partial-pull\r\naccept: application/mercurial-0.1\r\nhost: 127.0.0.1:46981\r\nus\
    er-agent: mercurial/proto-1.0 (Mercurial 6.3.2)\r\n\r\nGET /?cmd=listkeys HTTP/1.1\r\nAccept-En\
    coding: identity\r\nvary: X-HgArg-1,X-HgProto-1\r\nx-hgarg-1: namespace=bookmarks\r\nx-hgproto-\
    1: partial-pull\r\naccept: application/mercurial-0.1\r\nhost: 127.0.0.1:46981\r\nuser-agent: me\
    rcurial/proto-1.0 (Mercurial 6.3.2)\r\n\r\n";

/// What it is answered.
pub const TOLD_4: &[u8] =
    b"HTTP/1.1 200 OK\r\ncontent-type: application/mercurial-0.1\r\ncontent-length: 224\r\n\r\nbatc\
    h branchmap bundle2=HG20%0Abookmarks%0Achangegroup%3D01%2C02%0Aerror%3Dabort%2Cunsupportedconte\
    nt%2Cpushraced%2Cpushkey%0Aobsmarkers%3DV0%0Aphases%3Dheads%0Apushkey getbundle httpheader=1024 \
    known lookup pushkey unbundleHTTP/1.1 200 OK\r\ncontent-type: application/mercurial-0.1\r\ncont\
    ent-length: 43\r\n\r\n1 3f32c9ec310813353620bc414daa26628e9f48be\nHTTP/1.1 200 OK\r\ncontent-ty\
    pe: application/mercurial-0.1\r\ncontent-length: 40\r\n\r\nbookmarks\t\nnamespaces\t\nobsolete\
    \t\nphases\tHTTP/1.1 200 OK\r\ncontent-type: application/mercurial-0.1\r\ncontent-length: 45\r\
    \n\r\nmain\t3f32c9ec310813353620bc414daa26628e9f48be";

/// What `hg pull` sends.
pub const ASKED_5: &[u8] =
    b"GET /?cmd=capabilities HTTP/1.1\r\nAccept-Encoding: identity\r\naccept: application/mercuria\
    l-0.1\r\nhost: 127.0.0.1:46981\r\nuser-agent: mercurial/proto-1.0 (Mercurial 6.3.2)\r\n\r\nGET \
    /?cmd=listkeys HTTP/1.1\r\nAccept-Encoding: identity\r\nvary: X-HgArg-1,X-HgProto-1\r\nx-hgarg\
    -1: namespace=bookmarks\r\nx-hgproto-1: partial-pull\r\naccept: application/mercurial-0.1\r\nh\
    ost: 127.0.0.1:46981\r\nuser-agent: mercurial/proto-1.0 (Mercurial 6.3.2)\r\n\r\nGET /?cmd=bat\
    ch HTTP/1.1\r\nAccept-Encoding: identity\r\nvary: X-HgArg-1,X-HgProto-1\r\nx-hgarg-1: cmds=hea\
    ds+%3Bknown+nodes%3Dd2b47496beb8a90bd2875aeb9cefae26d8505b71\r\nx-hgproto-1: partial-pull\r\na\
    ccept: application/mercurial-0.1\r\nhost: 127.0.0.1:46981\r\nuser-agent: mercurial/proto-1.0 (\
    Mercurial 6.3.2)\r\n\r\nGET /?cmd=getbundle HTTP/1.1\r\nAccept-Encoding: identity\r\nvary: X-H\
    gArg-1,X-HgProto-1\r\nx-hgarg-1: bundlecaps=HG20%2Cbundle2%3DHG20%250Abookmarks%250Achangegrou\
    p%253D01%252C02%250Acheckheads%253Drelated%250Adigests%253Dmd5%252Csha1%252Csha512%250Aerror%2\
    53Dabort%252Cunsupportedcontent%252Cpushraced%252Cpushkey%250Ahgtagsfnodes%250Alistkeys%250Aob\
    smarkers%253DV0%252CV1%250Aphases%253Dheads%250Apushkey%250Aremote-changegroup%253Dhttp%252Cht\
    tps%250Astream%253Dv2&cg=1&common=d2b47496beb8a90bd2875aeb9cefae26d8505b71&heads=2c9e373d819bf\
    ee7cca63354d0457853fa66f13c+d2b47496beb8a90bd2875aeb9cefae26d8505b71&obsmarkers=1&phases=1\r\n\
    x-hgproto-1: partial-pull\r\naccept: application/mercurial-0.1\r\nhost: 127.0.0.1:46981\r\nuse\
    r-agent: mercurial/proto-1.0 (Mercurial 6.3.2)\r\n\r\n";

/// What it is answered, where the changeset that it asks for is not here: when it was recorded another client
/// had pushed it, and it was a head in the place of `30b653f69f5c`.
pub const TOLD_5: &[u8] =
    b"HTTP/1.1 200 OK\r\ncontent-type: application/mercurial-0.1\r\ncontent-length: 224\r\n\r\nbat\
    ch branchmap bundle2=HG20%0Abookmarks%0Achangegroup%3D01%2C02%0Aerror%3Dabort%2Cunsupportedcon\
    tent%2Cpushraced%2Cpushkey%0Aobsmarkers%3DV0%0Aphases%3Dheads%0Apushkey getbundle httpheader=1\
    024 known lookup pushkey unbundleHTTP/1.1 200 OK\r\ncontent-type: application/mercurial-0.1\r\
    \ncontent-length: 45\r\n\r\nmain\t3f32c9ec310813353620bc414daa26628e9f48beHTTP/1.1 200 OK\r\nc\
    ontent-type: application/mercurial-0.1\r\ncontent-length: 84\r\n\r\n2c9e373d819bfee7cca63354d0\
    457853fa66f13c 30b653f69f5c5d07bc0bd38d172d2c1224b7be72\n;0HTTP/1.1 200 OK\r\ncontent-type: ap\
    plication/hg-error\r\ncontent-length: 32\r\n\r\nthis address takes pushes alone\n";

/// What `hg push -f` of a client sends that writes bundles of the old form and has nothing to push.
pub const ASKED_6: &[u8] =
    b"GET /?cmd=capabilities HTTP/1.1\r\nAccept-Encoding: identity\r\naccept: application/mercuria\
    l-0.1\r\nhost: 127.0.0.1:46981\r\nuser-agent: mercurial/proto-1.0 (Mercurial 6.3.2)\r\n\r\nGET \
    /?cmd=batch HTTP/1.1\r\nAccept-Encoding: identity\r\nvary: X-HgArg-1,X-HgProto-1\r\nx-hgarg-1: \
    cmds=heads+%3Bknown+nodes%3Dd2b47496beb8a90bd2875aeb9cefae26d8505b71\r\nx-hgproto-1: partial-p\
    ull\r\naccept: application/mercurial-0.1\r\nhost: 127.0.0.1:46981\r\nuser-agent: mercurial/pro\
    to-1.0 (Mercurial 6.3.2)\r\n\r\nGET /?cmd=listkeys HTTP/1.1\r\nAccept-Encoding: identity\r\nva\
    ry: X-HgArg-1,X-HgProto-1\r\nx-hgarg-1: namespace=phases\r\nx-hgproto-1: partial-pull\r\naccep\
    t: application/mercurial-0.1\r\nhost: 127.0.0.1:46981\r\nuser-agent: mercurial/proto-1.0 (Merc\
    urial 6.3.2)\r\n\r\nGET /?cmd=listkeys HTTP/1.1\r\nAccept-Encoding: identity\r\nvary: X-HgArg-\
    1,X-HgProto-1\r\nx-hgarg-1: namespace=bookmarks\r\nx-hgproto-1: partial-pull\r\naccept: applic\
    ation/mercurial-0.1\r\nhost: 127.0.0.1:46981\r\nuser-agent: mercurial/proto-1.0 (Mercurial 6.3\
    .2)\r\n\r\nGET /?cmd=listkeys HTTP/1.1\r\nAccept-Encoding: identity\r\nvary: X-HgArg-1,X-HgPro\
    to-1\r\nx-hgarg-1: namespace=phases\r\nx-hgproto-1: partial-pull\r\naccept: application/mercur\
    ial-0.1\r\nhost: 127.0.0.1:46981\r\nuser-agent: mercurial/proto-1.0 (Mercurial 6.3.2)\r\n\r\n";

/// What it is answered, where that changeset is not here.
pub const TOLD_6: &[u8] =
    b"HTTP/1.1 200 OK\r\ncontent-type: application/mercurial-0.1\r\ncontent-length: 224\r\n\r\nbat\
    ch branchmap bundle2=HG20%0Abookmarks%0Achangegroup%3D01%2C02%0Aerror%3Dabort%2Cunsupportedcon\
    tent%2Cpushraced%2Cpushkey%0Aobsmarkers%3DV0%0Aphases%3Dheads%0Apushkey getbundle httpheader=1\
    024 known lookup pushkey unbundleHTTP/1.1 200 OK\r\ncontent-type: application/mercurial-0.1\r\
    \ncontent-length: 84\r\n\r\n2c9e373d819bfee7cca63354d0457853fa66f13c 30b653f69f5c5d07bc0bd38d1\
    72d2c1224b7be72\n;0HTTP/1.1 200 OK\r\ncontent-type: application/mercurial-0.1\r\ncontent-lengt\
    h: 85\r\n\r\n30b653f69f5c5d07bc0bd38d172d2c1224b7be72\t1\n3f32c9ec310813353620bc414daa26628e9f\
    48be\t1HTTP/1.1 200 OK\r\ncontent-type: application/mercurial-0.1\r\ncontent-length: 45\r\n\r\
    \nmain\t3f32c9ec310813353620bc414daa26628e9f48beHTTP/1.1 200 OK\r\ncontent-type: application/m\
    ercurial-0.1\r\ncontent-length: 85\r\n\r\n30b653f69f5c5d07bc0bd38d172d2c1224b7be72\t1\n3f32c9e\
    c310813353620bc414daa26628e9f48be\t1";
